//! The lines of a trace are read, or the first of its faults is found.

ghost use Rattle.std.specs.Prelude.{◌≡◌, ℕ, ℤ, ◌≤◌, ◌<◌, Some, length, IfSome};
ghost use Rattle.std.specs.List.{list_all};
ghost use Rattle.lx_text.specs.declared.faults.Kind.TheVariants.{TraceName};
ghost use Rattle.lx_fhdl.specs.Designs.{shapes};
ghost use Rattle.lx_fhdl.specs.Keeping.{Keeps};
ghost use Rattle.lx_trace.specs.Cutoff.{capped, clipped};
ghost use Rattle.lx_trace.specs.Directories.{AreInputs};
ghost use Rattle.lx_trace.specs.Lines.{is_nonempty, is_plain, is_silent, run_counted, run_saying, saying, saying_by_arguments, saying_of, saying_of_words, set_saying};
ghost use Rattle.lx_trace.specs.Numbers.{number};
ghost use Rattle.lx_trace.specs.Reading.{Comes, IsFitting, IsRead, IsRefusedAs, ReadsLine, Rises};
ghost use Rattle.lx_trace.specs.Traces.{act_of, domain_among, event_of, if_input, most_steps, set_line, show_line, signal_named, steps_of, trace_of, with_rise};

use crate::acts::{Event, TraceAct, TraceLine};
use crate::directory::Directory;
use crate::numbers::{counting, number};
use crate::pieces::pieces;
use lx_fhdl::{Design, Domain, SigId};
use lx_num::fits;
use lx_text::{Fault, Kind, List, NoMemory, Refusal, Word};
use std::alloc::Global;

/// The most steps of a trace.
pub const MOST_STEPS: u32 = 1_000_000;

// ---- faults of one line

fn fault(line: u32, kind: Kind) -> Refusal
    ensures { IsRefusedAs line kind result }
{
    Refusal::Fault(Fault { line, kind })
}

fn no_name(alloc: Global, line: u32, name: &[u8]) -> Refusal
    ensures { IsRefusedAs line (TraceName name.now) result }
{
    match Word::new(alloc, name) {
        Ok(name) => fault(line, Kind::TraceName(name)),
        Err(NoMemory) => Refusal::NoMemory,
    }
}

// ---- acts

// Whether a number is one of a signal.
#[tactic(auto, using(crate::proofs::Clips::clip_fits, crate::proofs::Clips::clip_unfit))]
fn fits_signal(directory: &Directory<'_>, x: usize, value: i128) -> bool
    requires { x < length directory.now.design.signals }
    ensures { (z : ℤ) → value ≡ clipped z → IsFitting (shapes directory.now.design x) z result }
{
    if fits(value, directory.shape(x)) {
        true
    } else {
        false
    }
}

// `set` of an input to a value.
fn set_line(
    alloc: Global,
    directory: &Directory<'_>,
    line: u32,
    name: &[u8],
    value: i128,
) -> Result<TraceAct, Refusal>
    ensures { (z : ℤ) → value ≡ clipped z → Comes line (set_line directory.now.design name.now z (if_input directory.now.design (signal_named directory.now.design directory.now.names name.now))) result }
{
    let Some(x) = directory.input(name) else {
        return Err(no_name(alloc, line, name));
    };
    if !fits_signal(directory, x, value) {
        return Err(fault(line, Kind::TraceValue));
    }
    Ok(TraceAct::Set(SigId(x), value))
}

// `show` of a signal.
fn show_line(
    alloc: Global,
    directory: &Directory<'_>,
    line: u32,
    name: &[u8],
) -> Result<TraceAct, Refusal>
    ensures { Comes line (show_line name.now (signal_named directory.now.design directory.now.names name.now)) result }
{
    let Some(x) = directory.signal(name) else {
        return Err(no_name(alloc, line, name));
    };
    Ok(TraceAct::Show(SigId(x)))
}

// The domain that a name means.
fn domain_named(domains: &[Domain], name: &[u8]) -> Option<usize>
    ensures is { result ≡ domain_among 0 domains.now name.now }
    ensures there { IfSome result (λ k. k < length domains.now) }
{
    let mut place = 0;
    for domain in domains {
        if domain.name.is(name) {
            return Some(place);
        }
        place += 1;
    }
    None
}

// One domain more, unless it isn't there or rises already.
#[tactic(auto, using(crate::proofs::Bits::room))]
fn with_rise(rises: u32, domain: Option<usize>) -> Option<u32>
    requires { IfSome domain (λ k. k < 32) }
    ensures { result ≡ with_rise rises domain }
{
    let bit = 1u32 << domain?;
    if rises / bit % 2 == 1 {
        return None;
    }
    Some(rises + bit)
}

// The domains that rise together.
fn event(alloc: Global, domains: &[Domain], line: u32, words: &[Word]) -> Result<Event, Refusal>
    requires { length domains.now ≤ 16 }
    ensures { Rises line (event_of domains.now 0 words.now) result }
{
    let mut rises = 0u32;
    for word in words {
        match with_rise(rises, domain_named(domains, word.as_bytes())) {
            Some(more) => rises = more,
            None => return Err(no_name(alloc, line, word.as_bytes())),
        }
    }
    Ok(Event { rises })
}

// So many steps in which these domains rise, with so many steps before them.
fn run_line(
    alloc: Global,
    directory: &Directory<'_>,
    line: u32,
    steps: u32,
    count: u128,
    domains: &[Word],
) -> Result<TraceAct, Refusal>
    requires { steps ≤ most_steps }
    ensures { (n : ℕ) → count ≡ capped n → Comes line (act_of directory.now.design directory.now.names steps (run_saying (Some n) domains.now)) result }
{
    if domains.is_empty() {
        return Err(fault(line, Kind::TraceSyntax));
    }
    let event = event(alloc, directory.design().domains.as_slice(), line, domains)?;
    if count > (MOST_STEPS - steps) as u128 {
        return Err(fault(line, Kind::TraceValue));
    }
    Ok(TraceAct::Run(count as u32, event))
}

// The same, where the number of steps is the first of the words.
fn run_words(
    alloc: Global,
    directory: &Directory<'_>,
    line: u32,
    steps: u32,
    words: &[Word],
) -> Result<TraceAct, Refusal>
    requires { steps ≤ most_steps }
    ensures { Comes line (act_of directory.now.design directory.now.names steps (run_counted words.now)) result }
{
    let [first, domains @ ..] = words else {
        return Err(fault(line, Kind::TraceSyntax));
    };
    let Some(count) = counting(first.as_bytes()) else {
        return Err(fault(line, Kind::TraceSyntax));
    };
    run_line(alloc, directory, line, steps, count, domains)
}

// A word with one argument, or with two.
fn by_arguments(
    alloc: Global,
    directory: &Directory<'_>,
    line: u32,
    word: &Word,
    words: &[Word],
) -> Result<TraceAct, Refusal>
    ensures { (steps : ℕ) → Comes line (act_of directory.now.design directory.now.names steps (saying_by_arguments word.now words.now)) result }
{
    match words {
        [name] => {
            if word.is(b"show") {
                show_line(alloc, directory, line, name.as_bytes())
            } else {
                Err(fault(line, Kind::TraceSyntax))
            }
        }
        [name, written] => {
            if word.is(b"set") {
                set_number(alloc, directory, line, name.as_bytes(), written.as_bytes())
            } else {
                Err(fault(line, Kind::TraceSyntax))
            }
        }
        _ => Err(fault(line, Kind::TraceSyntax)),
    }
}

// `set` of an input to a number as it is written.
fn set_number(
    alloc: Global,
    directory: &Directory<'_>,
    line: u32,
    name: &[u8],
    written: &[u8],
) -> Result<TraceAct, Refusal>
    ensures { (steps : ℕ) → Comes line (act_of directory.now.design directory.now.names steps (set_saying name.now (number written.now))) result }
{
    match number(written) {
        Some(value) => set_line(alloc, directory, line, name, value),
        None => Err(fault(line, Kind::TraceSyntax)),
    }
}

// What a word and those behind it do.
fn by_word(
    alloc: Global,
    directory: &Directory<'_>,
    line: u32,
    steps: u32,
    word: &Word,
    words: &[Word],
) -> Result<TraceAct, Refusal>
    requires { steps ≤ most_steps }
    ensures { Comes line (act_of directory.now.design directory.now.names steps (saying_of word.now words.now)) result }
{
    if word.is(b"tick") {
        run_line(alloc, directory, line, steps, 1, words)
    } else if word.is(b"run") {
        run_words(alloc, directory, line, steps, words)
    } else {
        by_arguments(alloc, directory, line, word, words)
    }
}

// Whether no word is empty.
fn are_nonempty(words: &[Word]) -> bool
    ensures { result ≡ list_all is_nonempty words.now }
{
    for word in words {
        if word.as_bytes().is_empty() {
            return false;
        }
    }
    true
}

// What the words of a line do.
fn by_words(
    alloc: Global,
    directory: &Directory<'_>,
    line: u32,
    steps: u32,
    words: &[Word],
) -> Result<TraceAct, Refusal>
    requires { steps ≤ most_steps }
    ensures { Comes line (act_of directory.now.design directory.now.names steps (saying_of_words words.now)) result }
{
    match words {
        [word, behind @ ..] if are_nonempty(words) => {
            by_word(alloc, directory, line, steps, word, behind)
        }
        _ => Err(fault(line, Kind::TraceSyntax)),
    }
}

// Whether all bytes are blanks to `~`.
fn is_plain(bytes: &[u8]) -> bool
    ensures { result ≡ is_plain bytes.now }
{
    for byte in bytes {
        if *byte < 32 || *byte > 126 {
            return false;
        }
    }
    true
}

// What the bytes of a line do.
fn act(
    alloc: Global,
    directory: &Directory<'_>,
    line: u32,
    steps: u32,
    bytes: &[u8],
) -> Result<TraceAct, Refusal>
    requires { steps ≤ most_steps }
    ensures { Comes line (act_of directory.now.design directory.now.names steps (saying bytes.now)) result }
{
    if !is_plain(bytes) {
        return Err(fault(line, Kind::TraceSyntax));
    }
    let words = pieces(alloc, b' ', bytes)?;
    by_words(alloc, directory, line, steps, words.as_slice())
}

// ---- traces

// Whether a line does nothing.
fn is_silent(bytes: &[u8]) -> bool
    ensures { result ≡ is_silent bytes.now }
{
    match bytes {
        [] => true,
        [first, ..] => *first == b'#',
    }
}

// The steps of an act.
fn steps_of(act: TraceAct) -> u32
    ensures { result ≡ steps_of act }
{
    match act {
        TraceAct::Run(count, _) => count,
        TraceAct::Set(_, _) | TraceAct::Show(_) => 0,
    }
}

// The lines so far, and their steps.
#[derive(Drop)]
struct Reading {
    lines: List<TraceLine>,
    steps: u32,
}

// Reads a line more.
#[tactic(auto, using(crate::proofs::Steps::err_line, crate::proofs::Steps::silent_line, crate::proofs::Steps::ok_line))]
fn read_line(
    alloc: Global,
    directory: &Directory<'_>,
    line: u32,
    bytes: &[u8],
    reading: &mut Reading,
) -> Result<(), Refusal>
    requires { reading.old.steps ≤ most_steps }
    ensures { ReadsLine directory.now line bytes.now reading.old reading.new result }
{
    if is_silent(bytes) {
        return Ok(());
    }
    let act = act(alloc, directory, line, reading.steps, bytes)?;
    reading.lines.push(TraceLine { line, act })?;
    reading.steps += steps_of(act);
    Ok(())
}

/// The lines of a trace for a design, whose nets have these names, and of whose signals these are inputs; or its
/// first fault: TraceSyntax, TraceName, TraceValue.
pub fn read_trace(
    alloc: Global,
    text: &[u8],
    design: &Design,
    names: &List<Word>,
    inputs: &[bool],
) -> Result<List<TraceLine>, Refusal>
    requires keeps { Keeps design.now }
    requires names { length design.now.signals ≤ length names.now }
    requires inputs { AreInputs design.now inputs.now }
    requires size { length text.now ≤ 1048576 }
    ensures { IsRead (trace_of design.now names.now text.now) result }
{
    let directory = Directory::new(alloc, design, names, inputs)?;
    let lines = pieces(alloc, b'\n', text)?;
    let lines = lines.as_slice();
    let mut reading = Reading {
        lines: List::new(alloc),
        steps: 0,
    };
    for k in 0..lines.len() {
        read_line(
            alloc,
            &directory,
            k as u32 + 1,
            lines[k].as_bytes(),
            &mut reading,
        )?;
    }
    Ok(reading.lines)
}
