//! Lines that are shown.

use lx_outside::LoadFault;
use lx_text::{List, NoMemory, Text};

/// A line of two words and a number.
pub(crate) fn show(
    out: &mut Text,
    what: &[u8],
    answer: &[u8],
    number: usize,
) -> Result<(), NoMemory> {
    out.word(what)?;
    out.word(b": ")?;
    out.word(answer)?;
    out.word(b" ")?;
    out.count(number as u128)?;
    out.word(b"\n")
}

/// What reading answered, beside the bytes that the whole has: whether it is the whole, a front of it, or other bytes,
/// with the number of bytes.
pub(crate) fn show_loaded(
    out: &mut Text,
    what: &[u8],
    answer: Result<List<u8>, LoadFault>,
    whole: &[u8],
) -> Result<(), NoMemory> {
    match answer {
        Ok(bytes) => {
            let is_whole = bytes.as_slice() == whole;
            show(
                out,
                what,
                if is_whole {
                    b"whole".as_slice()
                } else {
                    b"other".as_slice()
                },
                bytes.len(),
            )
        }
        Err(LoadFault::TooLong(front)) => {
            let is_front = is_front(front.as_slice(), whole);
            show(
                out,
                what,
                if is_front {
                    b"front".as_slice()
                } else {
                    b"other".as_slice()
                },
                front.len(),
            )
        }
        Err(LoadFault::NoFile) => show(out, what, b"no file", 0),
        Err(LoadFault::Failed) => show(out, what, b"failed", 0),
        Err(LoadFault::NoMemory) => Err(NoMemory),
    }
}

// Whether the whole begins with these bytes.
pub(crate) fn is_front(front: &[u8], whole: &[u8]) -> bool {
    front.len() <= whole.len() && front == &whole[..front.len()]
}
