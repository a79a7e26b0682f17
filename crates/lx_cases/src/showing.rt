//! Bytes as they are shown: each line behind a blank, and `cut` behind a last one without a line end.

use lx_text::{NoMemory, Text};

/// A heading, and the bytes below it.
pub(crate) fn show(out: &mut Text, heading: &[u8], bytes: &[u8]) -> Result<(), NoMemory> {
    out.word(heading)?;
    out.word(b"\n")?;
    let mut is_fresh = true;
    for byte in bytes {
        show_next(out, is_fresh, *byte)?;
        is_fresh = *byte == b'\n';
    }
    if is_fresh {
        return Ok(());
    }
    out.word(b"\ncut\n")
}

fn show_next(out: &mut Text, is_fresh: bool, byte: u8) -> Result<(), NoMemory> {
    if is_fresh {
        out.word(b" ")?;
    }
    show_byte(out, byte)
}

// A byte, as `\xHH` where it isn't printable text or a line end.
fn show_byte(out: &mut Text, byte: u8) -> Result<(), NoMemory> {
    if byte == b'\n' || (byte >= b' ' && byte < 127 && byte != b'\\') {
        return out.word(&[byte]);
    }
    out.word(b"\\")?;
    out.hex(byte as u64, 2)
}

/// A heading and a number.
pub(crate) fn show_number(out: &mut Text, heading: &[u8], number: u64) -> Result<(), NoMemory> {
    out.word(heading)?;
    out.count(number as u128)?;
    out.word(b"\n")
}
