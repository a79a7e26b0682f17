//! The tokens of a text, and what kinds there are.

ghost use Rattle.lx_token.specs.Tokens.{Tokenized};

use crate::lines::Lines;
use crate::pieces::fault_at;
use crate::reader::{last_newline, read_pieces};
use lx_text::{Kind, List, MAX_BYTES, Refusal};
use std::alloc::Global;

/// What a token is. Which word or operator it is, its slice of the source tells.
#[derive(Clone, Copy, PartialEq, Eq)]
pub enum TokenKind {
    Name,
    Keyword,
    Number,
    Quoted,
    Op,
    Newline,
    Indent,
    Dedent,
    End,
}

/// A token: its text is the bytes of the source from `start` to `end`, and `line` is counted from 1.
#[derive(Clone, Copy, PartialEq, Eq)]
pub struct Token {
    pub kind: TokenKind,
    pub start: u32,
    pub end: u32,
    pub line: u32,
}

/// The tokens of a text; or the fault in it that stands first, with its line; or TooLong, of line 0, where it has more
/// than `MAX_BYTES`.
#[tactic(auto, unfolding(crate::specs::Tokens::tokens_of))]
pub fn tokens(alloc: Global, source: &[u8]) -> Result<List<Token>, Refusal>
    ensures { Tokenized source.now result }
{
    if source.len() > MAX_BYTES as usize {
        return Err(Refusal::Fault(fault_at(0, Kind::TooLong)));
    }
    let mut lines = Lines::new(alloc);
    if let Err(refusal) = read_pieces(source, &mut lines) {
        return Err(refusal);
    }
    match lines.finish(last_newline(source)) {
        Ok(tokens) => Ok(tokens),
        Err(_) => Err(Refusal::NoMemory),
    }
}
