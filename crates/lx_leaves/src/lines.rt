//! The lines of the cases.
//!
//! `== NAME` begins a case, in which nothing is declared or wished and no work is spent. In it stand wishes (`wishes`), and
//! `placed` asks where they go; `nodes` asks for the values and shapes of a few nodes. Each other line is a question or
//! declares something, and is written again with its answer behind it. A line that begins with `#` and an empty one say
//! nothing.

use crate::arguments::{self, Case};
use crate::placing::show_placed;
use crate::reading::cut;
use crate::shapes::show_shapes;
use crate::values::{show_condition, show_constant};
use crate::wishes::{add_wish, no_wishes};
use crate::{numbers, outside, tables, texts};
use lx_fhdl::Wishes;
use lx_text::{NoMemory, Text};
use std::alloc::Global;

/// Runs all cases, one after the other.
pub(crate) fn run_all(alloc: Global, source: &[u8], out: &mut Text) -> Result<(), NoMemory> {
    let mut case = Case::new(alloc);
    let mut wishes = no_wishes(alloc);
    for line in source.split(|byte| *byte == b'\n') {
        if let [b'=', b'=', ..] = line {
            case = Case::new(alloc);
            wishes = no_wishes(alloc);
        }
        if !add_wish(alloc, line, &mut wishes)? {
            run_line(alloc, line, &wishes, &mut case, out)?;
        }
    }
    Ok(())
}

fn run_line(
    alloc: Global,
    line: &[u8],
    wishes: &Wishes,
    case: &mut Case,
    out: &mut Text,
) -> Result<(), NoMemory> {
    match line {
        [] | [b'#', ..] => Ok(()),
        [b'=', b'=', ..] => {
            out.word(line)?;
            out.word(b"\n")
        }
        b"placed" => show_placed(alloc, wishes, out),
        b"nodes" => show_nodes(alloc, out),
        _ => run_question(alloc, line, case, out),
    }
}

fn show_nodes(alloc: Global, out: &mut Text) -> Result<(), NoMemory> {
    show_constant(alloc, out)?;
    show_condition(alloc, out)?;
    show_shapes(out)
}

fn run_question(
    alloc: Global,
    line: &[u8],
    case: &mut Case,
    out: &mut Text,
) -> Result<(), NoMemory> {
    out.word(line)?;
    out.word(b":")?;
    let is_read = match str::from_utf8(line) {
        Ok(line) => run_key(alloc, line, case, out)?,
        Err(_) => false,
    };
    out.word(if is_read {
        b"\n".as_slice()
    } else {
        b" can't be read\n".as_slice()
    })
}

// Whether one of the kinds of questions takes the line.
fn run_key(alloc: Global, line: &str, case: &mut Case, out: &mut Text) -> Result<bool, NoMemory> {
    let (key, rest) = cut(line);
    Ok(
        numbers::run(key, rest, out)?
            || tables::run(key, rest, out)?
            || texts::run(alloc, key, rest, out)?
            || arguments::run(alloc, key, rest, case, out)?
            || outside::run(alloc, key, rest, out)?,
    )
}
