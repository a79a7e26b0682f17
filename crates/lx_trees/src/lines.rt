//! The lines of the cases. Each question is written again with its answer behind it.
//!
//! In a text, blanks stand between the tokens, and NL, IN, DE and END for those that have no text of their own.
//! `line TEXT` asks for the nodes of a line of `__init__`; `text TEXT` whether a text has a tree; `fault TEXT` for the
//! number and the line of its fault; `chain COUNT TEXT` whether a line has a tree that is so many times this text and
//! then `c`; `described` whether the lines before it have one, which stand behind a blank; `said` for what the nodes and
//! classes of those lines say. A line that begins with `#` or `==` is a heading, and an empty one says nothing.

use crate::sheet::put_said;
use crate::showing::{faultless, has_tree, show_fault, show_line, show_truth};
use crate::tokens::{tokens_of, with_line};
use lx_text::{NoMemory, Text};
use lx_token::tokens::tokens;
use std::alloc::Global;

/// Answers all questions, one after the other.
pub(crate) fn run_all(alloc: Global, source: &[u8], out: &mut Text) -> Result<(), NoMemory> {
    let mut file = Text::new(alloc);
    for line in source.split(|byte| *byte == b'\n') {
        run_line(alloc, line, &mut file, out)?;
    }
    Ok(())
}

fn run_line(alloc: Global, line: &[u8], file: &mut Text, out: &mut Text) -> Result<(), NoMemory> {
    match line {
        [] => Ok(()),
        [b'#', ..] | [b'=', b'=', ..] => put_line(line, out),
        [b' ', text @ ..] => put_line(text, file),
        b"described" => show_described(alloc, std::mem::replace(file, Text::new(alloc)), out),
        b"said" => show_said(alloc, std::mem::replace(file, Text::new(alloc)), out),
        _ => run_question(alloc, line, out),
    }
}

fn put_line(line: &[u8], out: &mut Text) -> Result<(), NoMemory> {
    out.word(line)?;
    out.word(b"\n")
}

fn show_described(alloc: Global, file: Text, out: &mut Text) -> Result<(), NoMemory> {
    out.word(b"described:")?;
    match faultless(tokens(alloc, file.as_bytes()))? {
        Some(tokens) => show_truth(has_tree(alloc, file.as_bytes(), &tokens)?, out),
        None => put_line(b" no tokens", out),
    }
}

fn show_said(alloc: Global, file: Text, out: &mut Text) -> Result<(), NoMemory> {
    out.word(b"said:\n")?;
    put_said(alloc, file.as_bytes(), out)
}

fn run_question(alloc: Global, line: &[u8], out: &mut Text) -> Result<(), NoMemory> {
    out.word(line)?;
    out.word(b":")?;
    match str::from_utf8(line) {
        Ok(line) => answer(alloc, line, out),
        Err(_) => put_line(b" can't be read", out),
    }
}

fn answer(alloc: Global, line: &str, out: &mut Text) -> Result<(), NoMemory> {
    let (key, text) = line.split_once(' ').unwrap_or((line, ""));
    match key {
        "line" => {
            let text = with_line(alloc, text)?;
            show_line(alloc, text.as_str(), &tokens_of(alloc, text.as_str())?, out)
        }
        "text" => show_whole(alloc, text, out),
        "fault" => show_fault(alloc, text, &tokens_of(alloc, text)?, out),
        "chain" => show_chain(alloc, text, out),
        _ => put_line(b" can't be read", out),
    }
}

fn show_whole(alloc: Global, text: &str, out: &mut Text) -> Result<(), NoMemory> {
    let tokens = tokens_of(alloc, text)?;
    show_truth(has_tree(alloc, text.as_bytes(), &tokens)?, out)
}

fn show_chain(alloc: Global, text: &str, out: &mut Text) -> Result<(), NoMemory> {
    let (count, piece) = text.split_once(' ').unwrap_or((text, ""));
    let Ok(count) = count.parse::<u32>() else {
        return put_line(b" can't be read", out);
    };
    let chain = chain(alloc, count, piece)?;
    let text = with_line(alloc, chain.as_str())?;
    show_whole(alloc, text.as_str(), out)
}

fn chain(alloc: Global, count: u32, piece: &str) -> Result<String, NoMemory> {
    let mut chain = String::new(alloc);
    for _ in 0..count {
        chain.push_str(piece)?;
        chain.push_str(" ")?;
    }
    chain.push_str("c")?;
    Ok(chain)
}
