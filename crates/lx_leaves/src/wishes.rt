//! Wishes that are read from the words of a line.
//!
//! They stand in declared order, each with the line at which it stands: `region LINE NAME cached ORIGIN SIZE` or
//! `uncached`, `bank LINE NAME WORDS`, `fix LINE NAME NUMBER`, `manager NAME`, `irq LINE NAME NUMBER`; `-` is no origin and
//! no number.

use crate::reading::{cut, number};
use lx_fhdl::{BankWish, Fix, RegionWish, Wishes};
use lx_text::{List, NoMemory, Word};
use std::alloc::Global;

/// No wish.
pub(crate) fn no_wishes(alloc: Global) -> Wishes {
    Wishes {
        regions: List::new(alloc),
        banks: List::new(alloc),
        fixes: List::new(alloc),
        managers: List::new(alloc),
        irqs: List::new(alloc),
    }
}

/// Whether a line is a wish; it is added where it is.
pub(crate) fn add_wish(alloc: Global, line: &[u8], wishes: &mut Wishes) -> Result<bool, NoMemory> {
    let Ok(line) = str::from_utf8(line) else {
        return Ok(false);
    };
    let (key, rest) = cut(line);
    match key {
        "region" => add_region(alloc, rest, &mut wishes.regions),
        "bank" => add_bank(alloc, rest, &mut wishes.banks),
        "fix" => add_fix(alloc, rest, &mut wishes.fixes),
        "irq" => add_fix(alloc, rest, &mut wishes.irqs),
        "manager" => add_manager(alloc, rest, &mut wishes.managers),
        _ => Ok(false),
    }
}

// A line, as what it wishes: `region LINE NAME cached ORIGIN SIZE`, also `uncached`, with `-` for no origin.
fn add_region(alloc: Global, rest: &str, regions: &mut List<RegionWish>) -> Result<bool, NoMemory> {
    let (line, rest) = cut(rest);
    let (name, rest) = cut(rest);
    let (window, rest) = cut(rest);
    let (origin, size) = cut(rest);
    let Some(line) = number(line) else {
        return Ok(false);
    };
    let Some(size) = wide(size) else {
        return Ok(false);
    };
    let origin = wide(origin);
    let cached = window == "cached";
    let name = Word::new(alloc, name.as_bytes())?;
    regions.push(RegionWish {
        name,
        origin,
        size,
        cached,
        line,
    })?;
    Ok(true)
}

// `LINE NAME WORDS`.
fn add_bank(alloc: Global, rest: &str, banks: &mut List<BankWish>) -> Result<bool, NoMemory> {
    let (line, rest) = cut(rest);
    let (name, words) = cut(rest);
    let Some(line) = number(line) else {
        return Ok(false);
    };
    let Some(words) = number(words) else {
        return Ok(false);
    };
    let name = Word::new(alloc, name.as_bytes())?;
    banks.push(BankWish { name, words, line })?;
    Ok(true)
}

// `LINE NAME NUMBER`, with `-` for no number.
fn add_fix(alloc: Global, rest: &str, fixes: &mut List<Fix>) -> Result<bool, NoMemory> {
    let (line, rest) = cut(rest);
    let (name, text) = cut(rest);
    let Some(line) = number(line) else {
        return Ok(false);
    };
    let number = number(text);
    let name = Word::new(alloc, name.as_bytes())?;
    fixes.push(Fix { name, number, line })?;
    Ok(true)
}

// `NAME`.
fn add_manager(alloc: Global, name: &str, managers: &mut List<Word>) -> Result<bool, NoMemory> {
    managers.push(Word::new(alloc, name.as_bytes())?)?;
    Ok(true)
}

// A number in decimal, or in hexadecimal behind `0x`.
fn wide(text: &str) -> Option<u64> {
    let read = match text.split_once('x') {
        Some((_, digits)) => u64::from_str_radix(digits, 16),
        None => text.parse::<u64>(),
    };
    match read {
        Ok(number) => Some(number),
        Err(_) => None,
    }
}
