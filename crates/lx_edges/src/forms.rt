//! Readers and writers that give or take few bytes at a time, fail, or take nothing.

use crate::showing::{is_front, show, show_loaded};
use lx_command::{read_up_to, write_whole};
use lx_outside::Failed;
use lx_text::{NoMemory, Text};
use std::alloc::Global;
use std::io::{Error, ErrorKind, Read, Result as IoResult, Write};

const TEXT: &[u8] = b"the bytes of a reader";

// A reader that gives so many bytes at a time, and fails once it gave so many.
#[derive(Drop)]
struct Drops {
    given: usize,
    step: usize,
    fails_at: usize,
}

impl Read for Drops {
    fn read(&mut self, buf: &mut [u8]) -> IoResult<usize> {
        if self.given >= self.fails_at {
            return Err(Error::from(ErrorKind::Other));
        }
        let left = &TEXT[self.given.min(TEXT.len())..];
        let count = left.len().min(buf.len()).min(self.step);
        buf[..count].copy_from_slice(&left[..count]);
        self.given = self.given.saturating_add(count);
        Ok(count)
    }
}

/// Reading from readers of few bytes at a time, and from one that fails.
pub(crate) fn show_readers(alloc: Global, out: &mut Text) -> Result<(), NoMemory> {
    show_reader(alloc, out, b"one byte at a time", 1, 99, 99)?;
    show_reader(
        alloc,
        out,
        b"one byte at a time up to a limit that is met",
        1,
        99,
        21,
    )?;
    show_reader(alloc, out, b"one byte at a time past the limit", 1, 99, 20)?;
    show_reader(alloc, out, b"four bytes at a time past the limit", 4, 99, 5)?;
    show_reader(alloc, out, b"a reader that fails at once", 1, 0, 99)?;
    show_reader(alloc, out, b"a reader that fails in the middle", 1, 7, 99)?;
    show_reader(alloc, out, b"a reader that fails behind the limit", 1, 7, 6)
}

fn show_reader(
    alloc: Global,
    out: &mut Text,
    what: &[u8],
    step: usize,
    fails_at: usize,
    limit: u8,
) -> Result<(), NoMemory> {
    let mut reader = Drops {
        given: 0,
        step,
        fails_at,
    };
    let answer = read_up_to(&mut reader, alloc, limit as usize);
    show_loaded(out, what, answer, TEXT)
}

// A writer that takes so many bytes at a time, and fails once it holds so many.
#[derive(Drop)]
struct Sips {
    held: Vec<u8>,
    step: usize,
    fails_at: usize,
}

impl Write for Sips {
    fn write(&mut self, buf: &[u8]) -> IoResult<usize> {
        if self.held.len() >= self.fails_at {
            return Err(Error::from(ErrorKind::Other));
        }
        let count = buf.len().min(self.step);
        match self.held.extend_from_slice(&buf[..count]) {
            Ok(()) => Ok(count),
            Err(_) => Err(Error::from(ErrorKind::OutOfMemory)),
        }
    }

    fn flush(&mut self) -> IoResult<()> {
        Ok(())
    }
}

/// Writing to writers that take few bytes at a time, fail, or take nothing.
pub(crate) fn show_writers(alloc: Global, out: &mut Text) -> Result<(), NoMemory> {
    show_writer(alloc, out, b"one byte taken at a time", 1, 99, TEXT)?;
    show_writer(alloc, out, b"four bytes taken at a time", 4, 99, TEXT)?;
    show_writer(alloc, out, b"all bytes taken at once", 99, 99, TEXT)?;
    show_writer(alloc, out, b"no bytes to take", 1, 0, b"")?;
    show_writer(alloc, out, b"a writer that takes nothing", 0, 99, TEXT)?;
    show_writer(alloc, out, b"a writer that fails at once", 1, 0, TEXT)?;
    show_writer(alloc, out, b"a writer that fails in the middle", 1, 7, TEXT)?;
    show_writer(
        alloc,
        out,
        b"a writer that fails at the last byte",
        1,
        20,
        TEXT,
    )
}

fn show_writer(
    alloc: Global,
    out: &mut Text,
    what: &[u8],
    step: usize,
    fails_at: usize,
    bytes: &[u8],
) -> Result<(), NoMemory> {
    let mut writer = Sips {
        held: Vec::new(alloc),
        step,
        fails_at,
    };
    let answer = match write_whole(&mut writer, bytes) {
        Ok(()) => b"written".as_slice(),
        Err(Failed) => b"failed".as_slice(),
    };
    let held = writer.held.as_slice();
    if !is_front(held, bytes) {
        return show(out, what, b"other bytes", held.len());
    }
    show(out, what, answer, held.len())
}
