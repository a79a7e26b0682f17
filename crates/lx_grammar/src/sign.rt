//! The sign of a token: which word, operator or other token it is.

ghost use Rattle.std.specs.Prelude.{◌≡◌, IfOk, map};
ghost use Rattle.lx_grammar.specs.Numbers.{number, accepts};
ghost use Rattle.lx_grammar.specs.Signs.{keyword_sign, single_sign, pair_sign, name_sign, operator_sign, token_sign, text_at, item_of};

use lx_text::{List, NoMemory};
use lx_token::{Token, TokenKind};
use std::alloc::Global;

/// What a token stands for in the grammar. The last five are signs of a token together with what stands behind it.
#[derive(Clone, Copy)]
pub enum Sign {
    Name,
    Init,
    SelfName,
    Number,
    Text,
    Newline,
    Indent,
    Dedent,
    End,
    From,
    Import,
    Class,
    Def,
    Pass,
    If,
    Elif,
    Else,
    For,
    In,
    Or,
    And,
    Not,
    Is,
    None,
    True,
    False,
    Plus,
    Minus,
    Star,
    Floor,
    Percent,
    Power,
    ShiftLeft,
    ShiftRight,
    Ampersand,
    Bar,
    Caret,
    Tilde,
    Less,
    LessEqual,
    Equal,
    Unequal,
    Greater,
    GreaterEqual,
    Assign,
    AddAssign,
    OpenRound,
    CloseRound,
    OpenSquare,
    CloseSquare,
    OpenCurly,
    CloseCurly,
    Colon,
    Comma,
    Dot,
    Other,
    Target,
    LastDot,
    LastComma,
    KeyComma,
    Nothing,
}

/// A token and its sign.
#[derive(Clone, Copy)]
pub struct Item {
    pub token: Token,
    pub sign: Sign,
}

// Brackets that open.
pub const OPENING: u64 = 0x5400000000000;
// Brackets that close.
pub const CLOSING: u64 = 0xa800000000000;
// Tokens that stand outside brackets in no value.
pub const LOUD: u64 = 0x10300000022020;
// Tokens that may stand behind the last comma of a list.
pub const ENDS_VALUES: u64 = 0xa800000000020;
// `=` and `+=`.
pub const ASSIGNING: u64 = 0x300000000000;

/// The number of a sign.
#[tactic(auto, unfolding(crate::specs::Numbers::number))]
pub fn number_of(sign: Sign) -> u8
    ensures { result ≡ number sign }
{
    sign as u8
}

/// Whether a sign is in a set, which has a bit for each.
#[tactic(auto, unfolding(crate::specs::Numbers::accepts))]
pub fn is_in(set: u64, sign: Sign) -> bool
    ensures { result ≡ accepts set (number sign) }
{
    let number = number_of(sign);
    number < 64 && (set >> number) % 2 == 1
}

// The sign of a word of Python.
#[tactic(auto, unfolding(crate::specs::Signs::keyword_sign))]
fn keyword(text: &[u8]) -> Sign
    ensures { result ≡ keyword_sign text.now }
{
    if text == b"from".as_slice() {
        Sign::From
    } else if text == b"import".as_slice() {
        Sign::Import
    } else if text == b"class".as_slice() {
        Sign::Class
    } else if text == b"def".as_slice() {
        Sign::Def
    } else if text == b"pass".as_slice() {
        Sign::Pass
    } else if text == b"if".as_slice() {
        Sign::If
    } else if text == b"elif".as_slice() {
        Sign::Elif
    } else if text == b"else".as_slice() {
        Sign::Else
    } else if text == b"for".as_slice() {
        Sign::For
    } else if text == b"in".as_slice() {
        Sign::In
    } else if text == b"or".as_slice() {
        Sign::Or
    } else if text == b"and".as_slice() {
        Sign::And
    } else if text == b"not".as_slice() {
        Sign::Not
    } else if text == b"is".as_slice() {
        Sign::Is
    } else if text == b"None".as_slice() {
        Sign::None
    } else if text == b"True".as_slice() {
        Sign::True
    } else if text == b"False".as_slice() {
        Sign::False
    } else {
        Sign::Other
    }
}

// The sign of an operator of one byte.
#[tactic(auto, unfolding(crate::specs::Signs::single_sign))]
fn single(byte: u8) -> Sign
    ensures { result ≡ single_sign byte }
{
    match byte {
        b'+' => Sign::Plus,
        b'-' => Sign::Minus,
        b'*' => Sign::Star,
        b'%' => Sign::Percent,
        b'&' => Sign::Ampersand,
        b'|' => Sign::Bar,
        b'^' => Sign::Caret,
        b'~' => Sign::Tilde,
        b'<' => Sign::Less,
        b'>' => Sign::Greater,
        b'=' => Sign::Assign,
        b'(' => Sign::OpenRound,
        b')' => Sign::CloseRound,
        b'[' => Sign::OpenSquare,
        b']' => Sign::CloseSquare,
        b'{' => Sign::OpenCurly,
        b'}' => Sign::CloseCurly,
        b':' => Sign::Colon,
        b',' => Sign::Comma,
        b'.' => Sign::Dot,
        _ => Sign::Other,
    }
}

// The sign of an operator of two bytes.
#[tactic(auto, unfolding(crate::specs::Signs::pair_sign))]
fn pair(text: &[u8]) -> Sign
    ensures { result ≡ pair_sign text.now }
{
    if text == b"//".as_slice() {
        Sign::Floor
    } else if text == b"**".as_slice() {
        Sign::Power
    } else if text == b"<<".as_slice() {
        Sign::ShiftLeft
    } else if text == b">>".as_slice() {
        Sign::ShiftRight
    } else if text == b"<=".as_slice() {
        Sign::LessEqual
    } else if text == b"==".as_slice() {
        Sign::Equal
    } else if text == b"!=".as_slice() {
        Sign::Unequal
    } else if text == b">=".as_slice() {
        Sign::GreaterEqual
    } else if text == b"+=".as_slice() {
        Sign::AddAssign
    } else {
        Sign::Other
    }
}

// The sign of an operator.
#[tactic(auto, unfolding(crate::specs::Signs::operator_sign))]
fn operator(text: &[u8]) -> Sign
    ensures { result ≡ operator_sign text.now }
{
    match text {
        [byte] => single(*byte),
        _ => pair(text),
    }
}

// The sign of a name.
#[tactic(auto, unfolding(crate::specs::Signs::name_sign))]
fn name(text: &[u8]) -> Sign
    ensures { result ≡ name_sign text.now }
{
    if text == b"__init__".as_slice() {
        Sign::Init
    } else if text == b"self".as_slice() {
        Sign::SelfName
    } else {
        Sign::Name
    }
}

/// The sign of a token of this kind with this text.
#[tactic(auto, unfolding(crate::specs::Signs::token_sign))]
pub fn sign_of(kind: TokenKind, text: &[u8]) -> Sign
    ensures { result ≡ token_sign kind text.now }
{
    match kind {
        TokenKind::Name => name(text),
        TokenKind::Keyword => keyword(text),
        TokenKind::Number => Sign::Number,
        TokenKind::Quoted => Sign::Text,
        TokenKind::Op => operator(text),
        TokenKind::Newline => Sign::Newline,
        TokenKind::Indent => Sign::Indent,
        TokenKind::Dedent => Sign::Dedent,
        TokenKind::End => Sign::End,
    }
}

/// The bytes of a token; of a token that passes the source's end, those up to it.
#[tactic(auto, unfolding(crate::specs::Signs::text_at))]
pub fn token_text<'a>(src: &'a [u8], token: &Token) -> &'a [u8]
    ensures { result.now ≡ text_at src.now token.now.start token.now.end }
{
    let start = (token.start as usize).min(src.len());
    let end = (token.end as usize).max(start).min(src.len());
    &src[start..end]
}

/// The tokens with their signs.
#[tactic(auto, unfolding(crate::specs::Signs::item_of))]
pub fn signed(alloc: Global, src: &[u8], tokens: &[Token]) -> Result<List<Item>, NoMemory>
    ensures { IfOk result (λ items. items ≡ map (item_of src.now) tokens.now) }
{
    let mut items = List::new(alloc);
    for token in tokens {
        let sign = sign_of(token.kind, token_text(src, token));
        items.push(Item {
            token: *token,
            sign,
        })?;
    }
    Ok(items)
}
