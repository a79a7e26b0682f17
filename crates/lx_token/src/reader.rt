//! A text read in one pass: piece by piece, each in its place.

ghost use Rattle.std.specs.Prelude.{◌≡◌, ◌+◌, ◌<◌, ◌≤◌, length, drop, IfOk};
ghost use Rattle.lx_token.specs.Lexemes.{lexeme_of, lexeme_len, IsWithin};
ghost use Rattle.lx_token.specs.Pieces.{pieces_of};
ghost use Rattle.lx_token.specs.Machine.{Gives, take_all};
ghost use Rattle.lx_text.specs.Limits.{max_bytes};
ghost use Rattle.lx_token.specs.Tokens.{last_newline};

use crate::lexemes::{Lexeme, lexeme_at};
use crate::lines::Lines;
use crate::pieces::{line_ends, open_behind, put_in_place, token_at};
use crate::tokens::{Token, TokenKind};
use lx_text::Refusal;

// Gives the pieces of a text to its lines.
pub(crate) fn read_pieces(source: &[u8], lines: &mut Lines) -> Result<(), Refusal>
    requires short { length source.now ≤ max_bytes }
    requires fresh { lines.old.width ≡ 0 }
    ensures { Gives result lines.new (take_all (pieces_of source.now) lines.old) }
{
    let mut rest = source;
    let mut depth: u32 = 0;
    let mut at: u32 = 0;
    let mut line: u32 = 1;
    'pieces: while !rest.is_empty() {
        let lexeme = lexeme_at(rest);
        let taken = length_of(lexeme, rest);
        let piece = put_in_place(depth, lexeme, rest, at, line);
        if let Err(refusal) = lines.take(piece) {
            return Err(refusal);
        }
        depth = open_behind(lexeme, depth);
        line += line_ends(&rest[..taken]) as u32;
        at += taken as u32;
        rest = behind(rest, taken);
    }
    Ok(())
}

// The Newline at the end of a text whose last line has no LF.
pub(crate) fn last_newline(source: &[u8]) -> Token
    requires { length source.now ≤ max_bytes }
    ensures { result ≡ last_newline source.now }
{
    token_at(
        TokenKind::Newline,
        source.len() as u32,
        0,
        1 + line_ends(source) as u32,
    )
}

// The bytes that the lexeme at the front takes.
fn length_of(lexeme: Lexeme, bytes: &[u8]) -> usize
    requires front { lexeme ≡ lexeme_of bytes.now }
    requires some { 0 < length bytes.now }
    ensures value { result ≡ lexeme_len lexeme }
    ensures within { IsWithin lexeme (length bytes.now) }
    ensures some { 0 < result }
    ensures bound { result ≤ length bytes.now }
{
    match lexeme {
        Lexeme::Part(_, length) => length,
        Lexeme::BadByte(_) => 1,
        Lexeme::NumberRange => 1,
    }
}

// What is left behind so many bytes.
fn behind(bytes: &[u8], count: usize) -> &[u8]
    requires { count ≤ length bytes.now }
    ensures { result.now ≡ drop count bytes.now }
{
    &bytes[count..]
}
