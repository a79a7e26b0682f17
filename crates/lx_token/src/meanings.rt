//! What a text between quotes stands for.

ghost use Rattle.std.specs.Prelude.{◌≡◌, ◌++◌, ◌<◌, ◌≤◌, length, IfOk, OnOk, option_to_list, []};
ghost use Rattle.lx_token.specs.Meanings.{escaped, inside, is_long, quoted_bytes, unescaped};

use crate::quotes::begins_with_two;
use lx_text::{List, NoMemory, Word};
use std::alloc::Global;

/// The bytes that a text stands for, which is given with its quotes.
#[tactic(auto, unfolding(crate::specs::Meanings::quoted_bytes))]
pub fn quoted_word(alloc: Global, text: &[u8]) -> Result<Word, NoMemory>
    ensures { IfOk result (λ word. word ≡ quoted_bytes text.now) }
{
    let mut bytes = List::new(alloc);
    put_unescaped(&mut bytes, inside(text))?;
    Ok(Word::from_list(bytes))
}

// Whether a text stands between three quotes.
#[tactic(auto, unfolding(crate::specs::Meanings::is_long))]
fn is_long(text: &[u8]) -> bool
    ensures { result ≡ is_long text.now }
{
    match text {
        [] => false,
        [quote, rest @ ..] => begins_with_two(*quote, rest) && rest.len() >= 5,
    }
}

// What stands between the quotes.
fn inside(text: &[u8]) -> &[u8]
    ensures { result.now ≡ inside text.now }
{
    let quotes = if is_long(text) { 3 } else { 1 };
    if text.len() < 2 * quotes {
        return &[];
    }
    &text[quotes..text.len() - quotes]
}

// The byte that one behind a backslash stands for.
#[tactic(auto, unfolding(crate::specs::Meanings::escaped))]
fn escaped(byte: u8) -> u8
    ensures { result ≡ escaped byte }
{
    match byte {
        b'n' => b'\n',
        b't' => b'\t',
        _ => byte,
    }
}

// The first byte that these stand for, where there is one, and what is left.
#[tactic(auto, unfolding(crate::specs::Meanings::unescaped))]
fn first_of(bytes: &[u8]) -> (Option<u8>, &[u8])
    requires { [] ≡ bytes.now → ⊥ }
    ensures value { unescaped bytes.now ≡ option_to_list result.0 ++ unescaped result.1.now }
    ensures shorter { length result.1.now < length bytes.now }
{
    match bytes {
        [] => (None, bytes),
        [byte] => (Some(*byte), &[]),
        [b'\\', byte, rest @ ..] => (Some(escaped(*byte)), rest),
        [b'\r', b'\n', ..] => (None, &bytes[1..]),
        [byte, _, ..] => (Some(*byte), &bytes[1..]),
    }
}

// Appends what these bytes stand for.
#[tactic(auto, unfolding(crate::specs::Meanings::unescaped))]
fn put_unescaped(into: &mut List<u8>, bytes: &[u8]) -> Result<(), NoMemory>
    ensures { OnOk result (into.new ≡ into.old ++ unescaped bytes.now) }
{
    let mut rest = bytes;
    'bytes: while !rest.is_empty() {
        let (byte, left) = first_of(rest);
        if let Some(byte) = byte {
            into.push(byte)?;
        }
        rest = left;
    }
    Ok(())
}
