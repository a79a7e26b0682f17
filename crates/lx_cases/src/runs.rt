//! A case is run, and what comes of it is shown.

ghost use Rattle.std.specs.Prelude.{◌<◌, length};

use crate::case::{Ask, Case, Fails, Growing, bytes_of, pairs};
use crate::showing::{show, show_number};
use crate::tokens::{show_kinds, show_places};
use lx_command::Status;
use lx_outside::{MemConsole, MemSink, MemSource, Pair, have_distinct_names};
use lx_text::{List, NoMemory, Text, Word};
use lx_top::lxb;
use std::alloc::Global;

// The outside of a run.
#[derive(Drop)]
struct Outside {
    src: MemSource,
    sink: MemSink,
    con: MemConsole,
    err: MemConsole,
}

/// What comes of a case, over the files that all cases share.
pub(crate) fn run_case(
    alloc: Global,
    shared: &[Growing],
    case: Case,
    out: &mut Text,
) -> Result<(), NoMemory> {
    let Case {
        ask,
        words,
        files,
        fails,
        unread,
    } = case;
    if let Some(number) = unread {
        return show_number(out, b"not run: this line can't be read: ", number);
    }
    let files = pairs(alloc, shared, files.as_slice())?;
    match ask {
        Ask::Run => run_words(alloc, words.as_slice(), files, fails, out),
        Ask::Kinds(name) => show_kinds(
            alloc,
            name.as_bytes(),
            bytes_of(files.as_slice(), name.as_bytes()),
            out,
        ),
        Ask::Places(name) => show_places(
            alloc,
            name.as_bytes(),
            bytes_of(files.as_slice(), name.as_bytes()),
            out,
        ),
    }
}

// Room for so many stored files, and for so many bytes of each kind.
const FILES: usize = 8;

const BYTES: usize = 65_536;

// A run over these words, and what it leaves.
fn run_words(
    alloc: Global,
    words: &[Word],
    files: List<Pair>,
    fails: Fails,
    out: &mut Text,
) -> Result<(), NoMemory> {
    if !have_distinct_names(files.as_slice()) {
        return out.word(b"not run: two files have the same name\n");
    }
    let Fails {
        loads,
        stores,
        says,
        tells,
    } = fails;
    let mut outside = Outside {
        src: MemSource::new(files, loads),
        sink: MemSink::new(alloc, FILES, BYTES, stores)?,
        con: MemConsole::new(alloc, BYTES, says)?,
        err: MemConsole::new(alloc, BYTES, tells)?,
    };
    let status = call(alloc, words, &mut outside);
    show_outside(status, &outside, out)
}

fn call(alloc: Global, words: &[Word], outside: &mut Outside) -> Status {
    lxb(
        alloc,
        words,
        &mut outside.src,
        &mut outside.sink,
        &mut outside.con,
        &mut outside.err,
    )
}

// The file that was stored in this place.
fn show_stored(sink: &MemSink, place: usize, out: &mut Text) -> Result<(), NoMemory>
    requires { place < length sink.now.pairs }
{
    out.word(b"stored ")?;
    show(out, sink.name(place), sink.bytes(place))
}

fn show_outside(status: Status, outside: &Outside, out: &mut Text) -> Result<(), NoMemory> {
    show_number(out, b"status ", status.number() as u64)?;
    for place in 0..outside.sink.count() {
        show_stored(&outside.sink, place, out)?;
    }
    show(out, b"said", outside.con.bytes())?;
    show(out, b"told", outside.err.bytes())
}
