//! Questions of files and text in memory. Calls are counted from 1.
//!
//! `loads CALL NAME=TEXT NAME/LIMIT ..` loads from a source of this file whose call of this number fails, `sure` from one
//! that never fails; `stores PAIRS BYTES CALL/TAKEN NAME=TEXT ..` stores in a sink of this room whose call of this number
//! fails behind so many bytes, and then tells what it holds; `says BYTES CALL/TAKEN TEXT ..` does so with a console;
//! `nothing NAME=TEXT` stores and says where nothing is kept.

use crate::reading::{answer, answer_number, cut, number, parts};
use lx_outside::{
    Console, Fail, Failed, LoadFault, MemConsole, MemSink, MemSource, NullConsole, NullSink, Pair,
    Sink, Source, SureSource, have_distinct_names,
};
use lx_text::{List, NoMemory, Text, Word};
use std::alloc::Global;

/// Answers a question of files in memory; false where it is none.
pub(crate) fn run(alloc: Global, key: &str, rest: &str, out: &mut Text) -> Result<bool, NoMemory> {
    match key {
        "loads" => show_loads(alloc, rest, out),
        "sure" => show_sure(alloc, rest, out),
        "stores" => show_stores(alloc, rest, out),
        "says" => show_says(alloc, rest, out),
        "nothing" => show_nothing(rest, out),
        _ => Ok(false),
    }
}

// The source's one file.
fn file(alloc: Global, text: &str) -> Result<List<Pair>, NoMemory> {
    let (name, bytes) = parts(text, '=');
    let name = Word::new(alloc, name.as_bytes())?;
    let bytes = List::from_vec(Vec::from_slice(alloc, bytes.as_bytes())?);
    List::of_one(alloc, Pair { name, bytes })
}

fn show_loads(alloc: Global, rest: &str, out: &mut Text) -> Result<bool, NoMemory> {
    let (call, rest) = cut(rest);
    let (text, asks) = cut(rest);
    let Some(call) = number(call) else {
        return Ok(false);
    };
    let files = file(alloc, text)?;
    if !have_distinct_names(files.as_slice()) {
        return Ok(false);
    }
    let mut source = MemSource::new(files, List::of_one(alloc, call as u64)?);
    ask_all(alloc, asks, &mut source, out)
}

fn show_sure(alloc: Global, rest: &str, out: &mut Text) -> Result<bool, NoMemory> {
    let (text, asks) = cut(rest);
    let files = file(alloc, text)?;
    if !have_distinct_names(files.as_slice()) {
        return Ok(false);
    }
    ask_all(alloc, asks, &mut SureSource::new(files), out)
}

fn ask_all<S: Source>(
    alloc: Global,
    asks: &str,
    source: &mut S,
    out: &mut Text,
) -> Result<bool, NoMemory> {
    for ask in asks.split(' ') {
        let (name, limit) = parts(ask, '/');
        let limit = number(limit).unwrap_or(0).min(1_000_000);
        show_load(source.load(alloc, name.as_bytes(), limit as u64), out)?;
    }
    Ok(true)
}

fn show_load(loaded: Result<List<u8>, LoadFault>, out: &mut Text) -> Result<bool, NoMemory> {
    match loaded {
        Ok(bytes) => show_bytes(b"whole", bytes.as_slice(), out),
        Err(LoadFault::TooLong(front)) => show_bytes(b"front", front.as_slice(), out),
        Err(LoadFault::NoFile) => answer(out, b"no file"),
        Err(LoadFault::Failed) => answer(out, b"failed"),
        Err(LoadFault::NoMemory) => Err(NoMemory),
    }
}

fn show_bytes(what: &[u8], bytes: &[u8], out: &mut Text) -> Result<bool, NoMemory> {
    answer(out, what)?;
    answer(out, bytes)
}

// The call that fails.
fn fail(text: &str) -> Option<Fail> {
    let (call, taken) = parts(text, '/');
    let call = number(call)?;
    let taken = number(taken)?;
    Some(Fail {
        call: call as u64,
        taken: taken as u64,
    })
}

fn show_stores(alloc: Global, rest: &str, out: &mut Text) -> Result<bool, NoMemory> {
    let (pairs, rest) = cut(rest);
    let (bytes, rest) = cut(rest);
    let (text, stores) = cut(rest);
    let Some(pairs) = number(pairs) else {
        return Ok(false);
    };
    let Some(bytes) = number(bytes) else {
        return Ok(false);
    };
    let Some(fail) = fail(text) else {
        return Ok(false);
    };
    let fails = List::of_one(alloc, fail)?;
    let mut sink = MemSink::new(alloc, pairs as usize, bytes as usize, fails)?;
    for store in stores.split(' ') {
        show_store(store, &mut sink, out)?;
    }
    show_held(&sink, out)
}

fn show_store<S: Sink>(text: &str, sink: &mut S, out: &mut Text) -> Result<bool, NoMemory> {
    let (name, bytes) = parts(text, '=');
    show_done(sink.store(name.as_bytes(), bytes.as_bytes()), out)
}

fn show_done(done: Result<(), Failed>, out: &mut Text) -> Result<bool, NoMemory> {
    match done {
        Ok(()) => answer(out, b"done"),
        Err(Failed) => answer(out, b"failed"),
    }
}

fn show_held(sink: &MemSink, out: &mut Text) -> Result<bool, NoMemory> {
    answer_number(out, sink.count() as i128)?;
    for place in 0..sink.count() {
        show_bytes(sink.name(place), sink.bytes(place), out)?;
    }
    Ok(true)
}

fn show_says(alloc: Global, rest: &str, out: &mut Text) -> Result<bool, NoMemory> {
    let (bytes, rest) = cut(rest);
    let (text, says) = cut(rest);
    let Some(bytes) = number(bytes) else {
        return Ok(false);
    };
    let Some(fail) = fail(text) else {
        return Ok(false);
    };
    let fails = List::of_one(alloc, fail)?;
    let mut console = MemConsole::new(alloc, bytes as usize, fails)?;
    for text in says.split(' ') {
        show_done(console.say(text.as_bytes()), out)?;
    }
    answer(out, console.bytes())
}

fn show_nothing(rest: &str, out: &mut Text) -> Result<bool, NoMemory> {
    show_store(rest, &mut NullSink::new(), out)?;
    show_done(NullConsole::new().say(rest.as_bytes()), out)
}
