//! Questions of texts.
//!
//! `dec NUMBER`, `count NUMBER` and `hex NUMBER DIGITS` ask for the text of a number; `work LINE`, `drivers LINE NAME OTHER`
//! and `loop LINE NAME ..` for the line of a fault; `copy WORD` for a copy of a word, and the code of its second byte.

use crate::reading::{answer, answer_number, byte, cut, number, whole, words};
use lx_faults::fault_line;
use lx_text::{Fault, Kind, LimitKind, NoMemory, Text, Word};
use std::alloc::Global;

/// Answers a question of texts; false where it is none.
pub(crate) fn run(alloc: Global, key: &str, rest: &str, out: &mut Text) -> Result<bool, NoMemory> {
    match key {
        "dec" => show_dec(rest, out),
        "count" => show_count(rest, out),
        "hex" => show_hex(rest, out),
        "work" => show_work(alloc, rest, out),
        "drivers" => show_drivers(alloc, rest, out),
        "loop" => show_loop(alloc, rest, out),
        "copy" => show_copy(alloc, rest, out),
        _ => Ok(false),
    }
}

fn show_dec(rest: &str, out: &mut Text) -> Result<bool, NoMemory> {
    match whole(rest) {
        Some(number) => answer_number(out, number),
        None => Ok(false),
    }
}

fn show_count(rest: &str, out: &mut Text) -> Result<bool, NoMemory> {
    let Some(number) = number(rest) else {
        return Ok(false);
    };
    out.word(b" ")?;
    out.count(number as u128)?;
    Ok(true)
}

fn show_hex(rest: &str, out: &mut Text) -> Result<bool, NoMemory> {
    let (shown, digits) = cut(rest);
    let Some(shown) = number(shown) else {
        return Ok(false);
    };
    let Some(digits) = byte(digits) else {
        return Ok(false);
    };
    out.word(b" ")?;
    out.hex(shown as u64, digits)?;
    Ok(true)
}

fn show_work(alloc: Global, rest: &str, out: &mut Text) -> Result<bool, NoMemory> {
    let Some(line) = number(rest) else {
        return Ok(false);
    };
    let kind = Kind::Limit(LimitKind::Work);
    show_fault(alloc, Fault { line, kind }, out)
}

fn show_drivers(alloc: Global, rest: &str, out: &mut Text) -> Result<bool, NoMemory> {
    let (line, rest) = cut(rest);
    let (name, other) = cut(rest);
    let Some(line) = number(line) else {
        return Ok(false);
    };
    let Some(other) = number(other) else {
        return Ok(false);
    };
    let name = Word::new(alloc, name.as_bytes())?;
    let kind = Kind::TwoDrivers(name, other);
    show_fault(alloc, Fault { line, kind }, out)
}

fn show_loop(alloc: Global, rest: &str, out: &mut Text) -> Result<bool, NoMemory> {
    let (line, names) = cut(rest);
    let Some(line) = number(line) else {
        return Ok(false);
    };
    let kind = Kind::CombLoop(words(alloc, names)?);
    show_fault(alloc, Fault { line, kind }, out)
}

fn show_fault(alloc: Global, fault: Fault, out: &mut Text) -> Result<bool, NoMemory> {
    put_fault(alloc, &fault, out)
}

// The line of a fault in the file `f.py`, without its line end.
fn put_fault(alloc: Global, fault: &Fault, out: &mut Text) -> Result<bool, NoMemory> {
    let text = fault_line(alloc, b"f.py", fault)?;
    match text.as_bytes() {
        [shown @ .., b'\n'] => answer(out, shown),
        _ => Ok(false),
    }
}

fn show_copy(alloc: Global, rest: &str, out: &mut Text) -> Result<bool, NoMemory> {
    let copy = Word::new(alloc, rest.as_bytes())?.copied(alloc)?;
    answer(out, copy.as_bytes())?;
    let mut text = Text::new(alloc);
    text.word(copy.as_bytes())?;
    let list = text.into_list();
    if list.len() < 2 {
        return Ok(true);
    }
    answer_number(out, *list.at(1) as i128)
}
