//! Files that are stored and loaded again.

use crate::showing::{show, show_loaded};
use lx_command::{FileSink, FileSource};
use lx_outside::{Failed, Sink, Source};
use lx_text::{MAX_BYTES, NoMemory, Text};
use std::alloc::Global;
use std::rt::Files;

/// A file of 20,000 bytes, stored and loaded under several limits; names that can't be stored or loaded.
pub(crate) fn show_files<R: Files>(rt: &R, alloc: Global, out: &mut Text) -> Result<(), NoMemory> {
    let bytes = many_bytes(alloc)?;
    show_stored(rt, out, b"stored", b"made", bytes.as_slice())?;
    show_load(
        rt,
        alloc,
        out,
        b"a limit above",
        b"made",
        MAX_BYTES,
        bytes.as_slice(),
    )?;
    show_load(
        rt,
        alloc,
        out,
        b"a limit that is met",
        b"made",
        20_000,
        bytes.as_slice(),
    )?;
    show_load(
        rt,
        alloc,
        out,
        b"a limit below",
        b"made",
        19_999,
        bytes.as_slice(),
    )?;
    show_load(
        rt,
        alloc,
        out,
        b"a limit of one buffer",
        b"made",
        8_192,
        bytes.as_slice(),
    )?;
    show_load(
        rt,
        alloc,
        out,
        b"a limit of nothing",
        b"made",
        0,
        bytes.as_slice(),
    )?;
    show_stored(rt, out, b"stored anew", b"made", b"ab")?;
    show_load(rt, alloc, out, b"loaded anew", b"made", 9, b"ab")?;
    show_load(
        rt,
        alloc,
        out,
        b"a file that lay there",
        b"given",
        9,
        b"given\n",
    )?;
    show_load(rt, alloc, out, b"an empty file", b"empty", 0, b"")?;
    show_load(rt, alloc, out, b"a name that no file has", b"none", 9, b"")?;
    show_load(rt, alloc, out, b"a folder", b".", 9, b"")?;
    show_load(rt, alloc, out, b"a name that isn't text", b"\xff", 9, b"")?;
    show_stored(rt, out, b"a name in no folder", b"none/made", b"ab")?;
    show_stored(rt, out, b"a stored name that isn't text", b"\xff", b"ab")
}

// 20,000 bytes of which no 250 in a row come again at a buffer's end.
fn many_bytes(alloc: Global) -> Result<Vec<u8>, NoMemory> {
    let mut bytes = Vec::new(alloc);
    for place in 0..20_000u16 {
        bytes.push((place % 251) as u8)?;
    }
    Ok(bytes)
}

fn show_stored<R: Files>(
    rt: &R,
    out: &mut Text,
    what: &[u8],
    name: &[u8],
    bytes: &[u8],
) -> Result<(), NoMemory> {
    let mut sink = FileSink::new(rt);
    match sink.store(name, bytes) {
        Ok(()) => show(out, what, b"stored", bytes.len()),
        Err(Failed) => show(out, what, b"failed", 0),
    }
}

fn show_load<R: Files>(
    rt: &R,
    alloc: Global,
    out: &mut Text,
    what: &[u8],
    name: &[u8],
    limit: u64,
    whole: &[u8],
) -> Result<(), NoMemory> {
    let mut source = FileSource::new(rt);
    let answer = source.load(alloc, name, limit.min(MAX_BYTES));
    show_loaded(out, what, answer, whole)
}
