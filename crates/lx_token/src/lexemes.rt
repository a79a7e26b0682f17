//! What stands at the front of a text.

ghost use Rattle.std.specs.Prelude.{◌≡◌, ◌<◌, ◌+◌, ◌^◌, ◌∷◌, length, IfSome};
ghost use Rattle.lx_token.specs.Bytes.{is_operator_pair, begins};
ghost use Rattle.lx_token.specs.Turns.{IsAtMost};
ghost use Rattle.lx_token.specs.Lexemes.{lexeme_of, text_lexeme, word_lexeme, number_lexeme, quoted_lexeme, operator_lexeme, joint_lexeme, return_lexeme, IsWithin};

use crate::bytes::{
    begins_line_end, begins_with_feed, begins_with_name_byte, comment_len, is_closing, is_digit,
    is_letter, is_opening, is_operator, is_operator_pair, name_len,
};
use crate::numbers::{number_at, value_of};
use crate::quotes::{Ending, begins_with_two, end_of_text};
use crate::tokens::TokenKind;
use lx_tables::is_python_word;

/// What a piece of a text is. CR before LF, a backslash with its LF, and a comment are blanks.
#[derive(Clone, Copy)]
pub enum Form {
    Blank,
    Tab,
    LineEnd,
    Open,
    Close,
    Token(TokenKind),
}

/// What stands at the front of a text: a piece of so many bytes, a bad byte behind so many, or a number that is too
/// great.
#[derive(Clone, Copy)]
pub enum Lexeme {
    Part(Form, usize),
    BadByte(usize),
    NumberRange,
}

#[tactic(auto, unfolding(crate::specs::Lexemes::word_lexeme))]
fn word(bytes: &[u8]) -> Lexeme
    ensures { result ≡ word_lexeme bytes.now }
{
    let length = name_len(bytes);
    let kind = if is_python_word(&bytes[..length]) {
        TokenKind::Keyword
    } else {
        TokenKind::Name
    };
    Lexeme::Part(Form::Token(kind), length)
}

#[tactic(auto, unfolding(crate::specs::Lexemes::number_lexeme, crate::specs::Numbers::number_value))]
fn number(bytes: &[u8]) -> Lexeme
    ensures { result ≡ number_lexeme bytes.now }
{
    let number = number_at(bytes);
    let length = number.prefix + number.digits;
    if value_of(number.base, &bytes[number.prefix..length]).is_none() {
        Lexeme::NumberRange
    } else if begins_with_name_byte(&bytes[length..]) {
        Lexeme::BadByte(length)
    } else {
        Lexeme::Part(Form::Token(TokenKind::Number), length)
    }
}

fn text(opening: usize, end: Option<Ending>) -> Lexeme
    requires { IfSome end (λ e. (opening + e.length < 2 ^ 64) × IsAtMost e.length e.bad) }
    ensures { result ≡ text_lexeme opening end }
{
    match end {
        None => Lexeme::BadByte(0),
        Some(end) => match end.bad {
            None => Lexeme::Part(Form::Token(TokenKind::Quoted), opening + end.length),
            Some(place) => Lexeme::BadByte(opening + place),
        },
    }
}

#[tactic(auto, unfolding(crate::specs::Lexemes::quoted_lexeme))]
fn quoted(quote: u8, rest: &[u8]) -> Lexeme
    ensures { result ≡ quoted_lexeme quote rest.now }
{
    if begins_with_two(quote, rest) {
        text(3, end_of_text(true, quote, &rest[2..]))
    } else {
        text(1, end_of_text(false, quote, rest))
    }
}

#[tactic(auto, unfolding(crate::specs::Lexemes::operator_lexeme))]
fn operator(first: u8, rest: &[u8]) -> Lexeme
    ensures { result ≡ operator_lexeme first rest.now }
{
    if begins_with_second(first, rest) {
        Lexeme::Part(Form::Token(TokenKind::Op), 2)
    } else if is_operator(first) {
        Lexeme::Part(Form::Token(TokenKind::Op), 1)
    } else {
        Lexeme::BadByte(0)
    }
}

// Whether the second byte of an operator stands at the front.
fn begins_with_second(first: u8, rest: &[u8]) -> bool
    ensures { result ≡ begins (is_operator_pair first) rest.now }
{
    match rest {
        [] => false,
        [second, ..] => is_operator_pair(first, *second),
    }
}

#[tactic(auto, unfolding(crate::specs::Lexemes::joint_lexeme))]
fn joint(rest: &[u8]) -> Lexeme
    ensures { result ≡ joint_lexeme rest.now }
{
    if begins_with_feed(rest) {
        Lexeme::Part(Form::Blank, 2)
    } else if begins_line_end(rest) {
        Lexeme::Part(Form::Blank, 3)
    } else {
        Lexeme::BadByte(0)
    }
}

#[tactic(auto, unfolding(crate::specs::Lexemes::return_lexeme))]
fn carriage_return(rest: &[u8]) -> Lexeme
    ensures { result ≡ return_lexeme rest.now }
{
    if begins_with_feed(rest) {
        Lexeme::Part(Form::Blank, 1)
    } else {
        Lexeme::BadByte(0)
    }
}

/// What stands at the front of these bytes.
#[tactic(auto, unfolding(crate::specs::Lexemes::lexeme_of))]
pub(crate) fn lexeme_at(bytes: &[u8]) -> Lexeme
    ensures { result ≡ lexeme_of bytes.now }
{
    match bytes {
        [] => Lexeme::BadByte(0),
        [first, rest @ ..] => {
            let first = *first;
            if first == b' ' {
                Lexeme::Part(Form::Blank, 1)
            } else if first == b'\t' {
                Lexeme::Part(Form::Tab, 1)
            } else if first == b'\n' {
                Lexeme::Part(Form::LineEnd, 1)
            } else if first == b'\r' {
                carriage_return(rest)
            } else if first == b'\\' {
                joint(rest)
            } else if first == b'#' {
                Lexeme::Part(Form::Blank, comment_len(bytes))
            } else if is_letter(first) {
                word(bytes)
            } else if is_digit(first) {
                number(bytes)
            } else if first == b'"' || first == b'\'' {
                quoted(first, rest)
            } else if is_opening(first) {
                Lexeme::Part(Form::Open, 1)
            } else if is_closing(first) {
                Lexeme::Part(Form::Close, 1)
            } else {
                operator(first, rest)
            }
        }
    }
}
