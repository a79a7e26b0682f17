//! The lines of the cases.
//!
//! `== NAME` begins a case; what stands before the first is shared by all. In a case stand `words WORD WORD ..`, or
//! `word TEXT` for one word of any bytes; `file NAME` with the file's lines behind it, each behind a blank, `cut` where
//! the last one has no line end, and `fill COUNT BYTE` for so many bytes more; `fail load CALL` and
//! `fail store CALL TAKEN`, also `say` and `tell`, for the calls that fail; and, in the place of words, `kinds NAME` or
//! `places NAME` for the tokens of a file. A line that begins with `#` and an empty one say nothing.

use crate::case::{Ask, Case, Growing};
use crate::runs::run_case;
use lx_outside::Fail;
use lx_text::{List, NoMemory, Text, Word};
use std::alloc::Global;

/// Runs all cases, one after the other.
pub(crate) fn run_all(alloc: Global, source: &[u8], out: &mut Text) -> Result<(), NoMemory> {
    let mut read = Cases {
        shared: Case::new(alloc),
        case: Case::new(alloc),
        is_first: true,
    };
    let mut number = 0u64;
    for line in source.split(|byte| *byte == b'\n') {
        number = number.saturating_add(1);
        take_line(alloc, line, number, &mut read, out)?;
    }
    run_last(alloc, read, out)
}

// What is read: the files that all cases share, and the case whose lines come.
#[derive(Drop)]
struct Cases {
    shared: Case,
    case: Case,
    is_first: bool,
}

fn run_last(alloc: Global, read: Cases, out: &mut Text) -> Result<(), NoMemory> {
    let Cases {
        shared,
        case,
        is_first: _,
    } = read;
    run_case(alloc, shared.files.as_slice(), case, out)
}

fn take_line(
    alloc: Global,
    line: &[u8],
    number: u64,
    read: &mut Cases,
    out: &mut Text,
) -> Result<(), NoMemory> {
    match line {
        [b'=', b'=', b' ', name @ ..] => {
            end_case(alloc, read, out)?;
            begin(name, out)
        }
        _ => read_line(alloc, line, number, &mut read.case),
    }
}

// What stands before the first heading is shared by all cases; each later heading ends a case.
fn end_case(alloc: Global, read: &mut Cases, out: &mut Text) -> Result<(), NoMemory> {
    let done = std::mem::replace(&mut read.case, Case::new(alloc));
    if read.is_first {
        read.shared = done;
        read.is_first = false;
        return Ok(());
    }
    run_case(alloc, read.shared.files.as_slice(), done, out)
}

fn begin(name: &[u8], out: &mut Text) -> Result<(), NoMemory> {
    out.word(b"== ")?;
    out.word(name)?;
    out.word(b"\n")
}

fn read_line(alloc: Global, line: &[u8], number: u64, case: &mut Case) -> Result<(), NoMemory> {
    let is_read = add_line(alloc, line, case)?;
    if !is_read && case.unread.is_none() {
        case.unread = Some(number);
    }
    Ok(())
}

fn add_line(alloc: Global, line: &[u8], case: &mut Case) -> Result<bool, NoMemory> {
    match line {
        [] | [b'#', ..] => Ok(true),
        [b' ', text @ ..] => add_text(text, &mut case.files),
        _ => read_key(alloc, line, case),
    }
}

// A line of the last file.
fn add_text(text: &[u8], files: &mut Vec<Growing>) -> Result<bool, NoMemory> {
    let Some(file) = files.last_mut() else {
        return Ok(false);
    };
    file.bytes.extend_from_slice(text)?;
    file.bytes.push(b'\n')?;
    Ok(true)
}

fn read_key(alloc: Global, line: &[u8], case: &mut Case) -> Result<bool, NoMemory> {
    let Ok(line) = str::from_utf8(line) else {
        return Ok(false);
    };
    let (key, rest) = line.split_once(' ').unwrap_or((line, ""));
    match key {
        "words" => add_words(alloc, rest, &mut case.words),
        "word" => add_word(alloc, rest, &mut case.words),
        "file" => add_file(alloc, rest, &mut case.files),
        "cut" => Ok(cut(&mut case.files)),
        "fill" => fill(rest, &mut case.files),
        "fail" => add_fail(rest, case),
        "kinds" => ask_kinds(alloc, rest, &mut case.ask),
        "places" => ask_places(alloc, rest, &mut case.ask),
        _ => Ok(false),
    }
}

fn ask_kinds(alloc: Global, name: &str, ask: &mut Ask) -> Result<bool, NoMemory> {
    *ask = Ask::Kinds(Word::new(alloc, name.as_bytes())?);
    Ok(true)
}

fn ask_places(alloc: Global, name: &str, ask: &mut Ask) -> Result<bool, NoMemory> {
    *ask = Ask::Places(Word::new(alloc, name.as_bytes())?);
    Ok(true)
}

fn add_words(alloc: Global, rest: &str, words: &mut List<Word>) -> Result<bool, NoMemory> {
    if rest.is_empty() {
        return Ok(true);
    }
    for word in rest.split(' ') {
        let _added = add_word(alloc, word, words)?;
    }
    Ok(true)
}

fn add_word(alloc: Global, word: &str, words: &mut List<Word>) -> Result<bool, NoMemory> {
    words.push(Word::new(alloc, word.as_bytes())?)?;
    Ok(true)
}

fn add_file(alloc: Global, name: &str, files: &mut Vec<Growing>) -> Result<bool, NoMemory> {
    let name = Word::new(alloc, name.as_bytes())?;
    let bytes = Vec::new(alloc);
    files.push(Growing { name, bytes })?;
    Ok(true)
}

// The last line of the last file has no line end.
fn cut(files: &mut Vec<Growing>) -> bool {
    match files.last_mut() {
        Some(file) => file.bytes.pop().is_some(),
        None => false,
    }
}

// So many bytes more in the last file.
fn fill(rest: &str, files: &mut Vec<Growing>) -> Result<bool, NoMemory> {
    let Some((count, byte)) = two_numbers(rest) else {
        return Ok(false);
    };
    let Ok(byte) = u8::try_from(byte) else {
        return Ok(false);
    };
    match files.last_mut() {
        Some(file) => push_all(count, byte, &mut file.bytes),
        None => Ok(false),
    }
}

fn push_all(count: u64, byte: u8, bytes: &mut Vec<u8>) -> Result<bool, NoMemory> {
    for _ in 0..count {
        bytes.push(byte)?;
    }
    Ok(true)
}

fn two_numbers(text: &str) -> Option<(u64, u64)> {
    let (first, second) = text.split_once(' ')?;
    let first = number(first)?;
    let second = number(second)?;
    Some((first, second))
}

fn number(text: &str) -> Option<u64> {
    match text.parse::<u64>() {
        Ok(number) => Some(number),
        Err(_) => None,
    }
}

fn add_fail(rest: &str, case: &mut Case) -> Result<bool, NoMemory> {
    let (form, rest) = rest.split_once(' ').unwrap_or((rest, ""));
    match form {
        "load" => add_call(rest, &mut case.fails.loads),
        "store" => add_cut(rest, &mut case.fails.stores),
        "say" => add_cut(rest, &mut case.fails.says),
        "tell" => add_cut(rest, &mut case.fails.tells),
        _ => Ok(false),
    }
}

// A load that fails.
fn add_call(rest: &str, loads: &mut List<u64>) -> Result<bool, NoMemory> {
    let Some(call) = number(rest) else {
        return Ok(false);
    };
    loads.push(call)?;
    Ok(true)
}

// A call that fails after so many bytes.
fn add_cut(rest: &str, fails: &mut List<Fail>) -> Result<bool, NoMemory> {
    let Some((call, taken)) = two_numbers(rest) else {
        return Ok(false);
    };
    fails.push(Fail { call, taken })?;
    Ok(true)
}
