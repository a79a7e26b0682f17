//! What the words of a line say.

use lx_text::{List, NoMemory, Text, Word};
use std::alloc::Global;

/// A first word, and what stands behind it.
pub(crate) fn cut(text: &str) -> (&str, &str) {
    text.split_once(' ').unwrap_or((text, ""))
}

/// Two parts of a word, with this byte between them.
pub(crate) fn parts(text: &str, between: char) -> (&str, &str) {
    text.split_once(between).unwrap_or((text, ""))
}

/// A whole number.
pub(crate) fn whole(text: &str) -> Option<i128> {
    match text.parse::<i128>() {
        Ok(number) => Some(number),
        Err(_) => None,
    }
}

/// A number of at most 8 bits.
pub(crate) fn byte(text: &str) -> Option<u8> {
    match text.parse::<u8>() {
        Ok(number) => Some(number),
        Err(_) => None,
    }
}

/// A number of at most 32 bits.
pub(crate) fn number(text: &str) -> Option<u32> {
    match text.parse::<u32>() {
        Ok(number) => Some(number),
        Err(_) => None,
    }
}

/// The words of a line, none where it is empty.
pub(crate) fn words(alloc: Global, text: &str) -> Result<List<Word>, NoMemory> {
    let mut words = List::new(alloc);
    if text.is_empty() {
        return Ok(words);
    }
    for word in text.split(' ') {
        words.push(Word::new(alloc, word.as_bytes())?)?;
    }
    Ok(words)
}

/// A word of an answer, behind a blank.
pub(crate) fn answer(out: &mut Text, word: &[u8]) -> Result<bool, NoMemory> {
    out.word(b" ")?;
    out.word(word)?;
    Ok(true)
}

/// A number of an answer, behind a blank.
pub(crate) fn answer_number(out: &mut Text, number: i128) -> Result<bool, NoMemory> {
    out.word(b" ")?;
    out.dec(number)?;
    Ok(true)
}

/// Whether it holds, as a word of an answer.
pub(crate) fn answer_truth(out: &mut Text, holds: bool) -> Result<bool, NoMemory> {
    answer(
        out,
        if holds {
            b"yes".as_slice()
        } else {
            b"no".as_slice()
        },
    )
}
