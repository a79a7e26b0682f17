//! The tokens of a text, as they are shown.

use lx_faults::fault_line;
use lx_text::{NoMemory, Refusal, Text};
use lx_token::tokens::{Token, TokenKind, tokens};
use std::alloc::Global;

// One letter for each kind.
fn letter(kind: TokenKind) -> &'static [u8] {
    match kind {
        TokenKind::Name => b"N",
        TokenKind::Keyword => b"K",
        TokenKind::Number => b"1",
        TokenKind::Quoted => b"Q",
        TokenKind::Op => b"O",
        TokenKind::Newline => b"L",
        TokenKind::Indent => b"I",
        TokenKind::Dedent => b"D",
        TokenKind::End => b"E",
    }
}

/// The kinds of a text's tokens, or the line of its fault.
pub(crate) fn show_kinds(
    alloc: Global,
    name: &[u8],
    bytes: &[u8],
    out: &mut Text,
) -> Result<(), NoMemory> {
    let list = match tokens(alloc, bytes) {
        Ok(list) => list,
        Err(refusal) => return show_refusal(alloc, name, refusal, out),
    };
    for token in list.as_slice() {
        out.word(letter(token.kind))?;
    }
    out.word(b"\n")
}

/// The kind, the start, the end and the line of each token of a text, or the line of its fault.
pub(crate) fn show_places(
    alloc: Global,
    name: &[u8],
    bytes: &[u8],
    out: &mut Text,
) -> Result<(), NoMemory> {
    let list = match tokens(alloc, bytes) {
        Ok(list) => list,
        Err(refusal) => return show_refusal(alloc, name, refusal, out),
    };
    for token in list.as_slice() {
        show_token(out, token)?;
    }
    Ok(())
}

fn show_token(out: &mut Text, token: &Token) -> Result<(), NoMemory> {
    out.word(letter(token.kind))?;
    out.word(b" ")?;
    out.count(token.start as u128)?;
    out.word(b" ")?;
    out.count(token.end as u128)?;
    out.word(b" ")?;
    out.count(token.line as u128)?;
    out.word(b"\n")
}

fn show_refusal(
    alloc: Global,
    name: &[u8],
    refusal: Refusal,
    out: &mut Text,
) -> Result<(), NoMemory> {
    put_refusal(alloc, name, &refusal, out)
}

fn put_refusal(
    alloc: Global,
    name: &[u8],
    refusal: &Refusal,
    out: &mut Text,
) -> Result<(), NoMemory> {
    match refusal {
        Refusal::Fault(fault) => {
            let line = fault_line(alloc, name, fault)?;
            out.word(line.as_bytes())
        }
        Refusal::NoMemory => Err(NoMemory),
    }
}
