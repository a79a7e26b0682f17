//! Tokens of texts in which blanks stand between them.

use lx_text::{List, NoMemory};
use lx_token::{Token, TokenKind};
use std::alloc::Global;

// The words of Python that the texts have.
fn is_word(text: &str) -> bool {
    [
        "from", "import", "class", "def", "pass", "if", "elif", "else", "for", "in", "or", "and",
        "not", "is", "None", "True", "False", "while", "as", "lambda",
    ]
    .iter()
    .any(|word| *word == text)
}

fn kind_of(text: &str) -> TokenKind {
    match text {
        "NL" => TokenKind::Newline,
        "IN" => TokenKind::Indent,
        "DE" => TokenKind::Dedent,
        "END" => TokenKind::End,
        _ => kind_by_first(text),
    }
}

fn kind_by_first(text: &str) -> TokenKind {
    match text.as_bytes() {
        [b'0'..=b'9', ..] => TokenKind::Number,
        [b'"', ..] => TokenKind::Quoted,
        [b'a'..=b'z', ..] | [b'A'..=b'Z', ..] | [b'_', ..] => {
            if is_word(text) {
                TokenKind::Keyword
            } else {
                TokenKind::Name
            }
        }
        _ => TokenKind::Op,
    }
}

/// The tokens of a text.
pub(crate) fn tokens_of(alloc: Global, text: &str) -> Result<List<Token>, NoMemory> {
    let mut tokens = List::new(alloc);
    let mut start: usize = 0;
    let mut line: u32 = 1;
    for word in text.split(' ') {
        let end = start.saturating_add(word.len());
        tokens.push(Token {
            kind: kind_of(word),
            start: u32::try_from(start).unwrap_or(0),
            end: u32::try_from(end).unwrap_or(0),
            line,
        })?;
        if word == "NL" {
            line = line.saturating_add(1);
        }
        start = end.saturating_add(1);
    }
    Ok(tokens)
}

/// A class whose `__init__` has this line.
pub(crate) fn with_line(alloc: Global, line: &str) -> Result<String, NoMemory> {
    let text = format!(in alloc; "class A ( B ) : NL IN def __init__ ( self ) : {line} NL DE END")?;
    Ok(text)
}
