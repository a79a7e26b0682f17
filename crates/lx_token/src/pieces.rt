//! The pieces of a text in their places.

ghost use Rattle.std.specs.Prelude.{◌≡◌, ◌+◌, ◌^◌, ◌<◌, ◌≤◌, ◌∷◌, length};
ghost use Rattle.lx_token.specs.Lexemes.{IsWithin};
ghost use Rattle.lx_token.specs.Pieces.{fault_at, token_at, formed, placed, opened_by, open_behind, line_ends, most_open};

use crate::lexemes::{Form, Lexeme};
use crate::tokens::{Token, TokenKind};
use lx_text::{Fault, Kind};

/// A piece of a text. A tab has its line. The end of a logical line has its token, as each token of the line has. What
/// isn't right has the line at which it begins, and its fault.
#[derive(Drop)]
pub enum Piece {
    Blank,
    Tab(u32),
    LineEnd(Token),
    Whole(Token),
    Wrong(u32, Fault),
}

// So many brackets may be open.
const MOST_OPEN: u32 = 64;

// How many lines end in these bytes.
pub(crate) fn line_ends(bytes: &[u8]) -> usize
    ensures value { result ≡ line_ends bytes.now }
    ensures within { result ≤ length bytes.now }
{
    bytes.iter().filter(|byte| **byte == b'\n').count()
}

pub(crate) fn fault_at(line: u32, kind: Kind) -> Fault
    ensures { result ≡ fault_at line kind }
{
    Fault { line, kind }
}

pub(crate) fn token_at(kind: TokenKind, start: u32, length: u32, line: u32) -> Token
    requires { start + length < 2 ^ 32 }
    ensures { result ≡ token_at kind start length line }
{
    Token {
        kind,
        start,
        end: start + length,
        line,
    }
}

// A piece of this form and length, which stands at this place and line behind so many open brackets.
#[tactic(auto, unfolding(crate::specs::Pieces::formed))]
fn form_piece(depth: u32, form: Form, at: u32, length: u32, line: u32) -> Piece
    requires { at + length < 2 ^ 32 }
    ensures { result ≡ formed depth form at length line }
{
    match form {
        Form::Blank => Piece::Blank,
        Form::Tab => Piece::Tab(line),
        Form::LineEnd => {
            if depth == 0 {
                Piece::LineEnd(token_at(TokenKind::Newline, at, length, line))
            } else {
                Piece::Blank
            }
        }
        Form::Open => {
            if depth < MOST_OPEN {
                Piece::Whole(token_at(TokenKind::Op, at, length, line))
            } else {
                Piece::Wrong(line, fault_at(line, Kind::TooDeep))
            }
        }
        Form::Close => Piece::Whole(token_at(TokenKind::Op, at, length, line)),
        Form::Token(kind) => Piece::Whole(token_at(kind, at, length, line)),
    }
}

// The piece that a lexeme makes, which stands at the front of the bytes from this place and line on.
#[tactic(auto, unfolding(crate::specs::Pieces::placed))]
pub(crate) fn put_in_place(depth: u32, lexeme: Lexeme, bytes: &[u8], at: u32, line: u32) -> Piece
    requires within { IsWithin lexeme (length bytes.now) }
    requires room { at + length bytes.now < 2 ^ 31 }
    requires lines { line < 2 ^ 31 }
    ensures { result ≡ placed depth lexeme bytes.now at line }
{
    match lexeme {
        Lexeme::Part(form, length) => form_piece(depth, form, at, length as u32, line),
        Lexeme::BadByte(length) => {
            let lines = line_ends(&bytes[..length]) as u32;
            Piece::Wrong(
                line,
                fault_at(line + lines, Kind::BadByte(at + length as u32)),
            )
        }
        Lexeme::NumberRange => Piece::Wrong(line, fault_at(line, Kind::NumberRange)),
    }
}

// The brackets that are open behind a form.
fn opened_by(form: Form, depth: u32) -> u32
    requires { depth ≤ most_open }
    ensures value { result ≡ opened_by form depth }
    ensures bound { result ≤ most_open }
{
    match form {
        Form::Open => { if depth < MOST_OPEN { depth + 1 } else { depth } }
        Form::Close => depth.saturating_sub(1),
        _ => depth,
    }
}

// The brackets that are open behind a lexeme.
#[tactic(auto, unfolding(crate::specs::Pieces::open_behind))]
pub(crate) fn open_behind(lexeme: Lexeme, depth: u32) -> u32
    requires { depth ≤ most_open }
    ensures value { result ≡ open_behind lexeme depth }
    ensures bound { result ≤ most_open }
{
    match lexeme {
        Lexeme::Part(form, _) => opened_by(form, depth),
        Lexeme::BadByte(_) | Lexeme::NumberRange => depth,
    }
}
