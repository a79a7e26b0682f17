//! Bytes that are written whole, and text that is said on a writer.

ghost use Rattle.std.specs.Prelude.{◌≡◌, None};
ghost use Rattle.lx_command.specs.Reading.{Writes};

use lx_outside::{Console, Failed};
use std::io::Write;

/// Writes all bytes. A write that takes nothing fails.
pub fn write_whole<W: Write>(writer: &mut W, bytes: &[u8]) -> Result<(), Failed>
    ensures { Writes (W.contents writer.old) (W.contents writer.new) bytes.now result }
{
    let mut rest = bytes;
    for _ in 0..bytes.len() {
        if rest.is_empty() {
            return Ok(());
        }
        match writer.write(rest) {
            Ok(0) => return Err(Failed),
            Ok(count) => rest = &rest[count..],
            Err(_) => return Err(Failed),
        }
    }
    if rest.is_empty() { Ok(()) } else { Err(Failed) }
}

/// Text that is said on a writer, as standard output.
#[derive(Drop)]
pub struct StdConsole<W: Write + Drop> {
    writer: W,
    faults: u64,
}

impl<W: Write + Drop> StdConsole<W> {
    /// A console over this writer. No call has failed yet.
    pub fn new(writer: W) -> StdConsole<W> {
        StdConsole { writer, faults: 0 }
    }
}

impl<W: Write + Drop> Console for StdConsole<W> {
    ghost said = { λ _. None };

    ghost faults = { λ s. s.faults };

    fn say(&mut self, bytes: &[u8]) -> Result<(), Failed> {
        match write_whole(&mut self.writer, bytes) {
            Ok(()) => Ok(()),
            Err(_) => {
                self.faults = self.faults.saturating_add(1);
                Err(Failed)
            }
        }
    }
}
