//! The first drivings of each signal.

ghost use Rattle.std.specs.Prelude.{◌≡◌, ◌<◌, length, map, replicate, slice_index_or, slice_set, IfOk, IsTrue, if◌then◌else◌};
ghost use Rattle.std.specs.Option.{option_or};
ghost use Rattle.lx_reads.specs.Net.{driving_of};
ghost use Rattle.lx_check.specs.Marks.{AreMarks, are_below, differs, marked, no_mark};

use lx_reads::net::Driven;
use lx_text::NoMemory;
use std::alloc::Global;

/// What is known of the drivings of one signal.
#[derive(Clone, Copy)]
pub struct Mark {
    /// The first by a statement of the description.
    pub described: Option<Driven>,
    /// The first one.
    pub first: Option<Driven>,
    /// The first with another driver than the first one.
    pub second: Option<Driven>,
}

// What was found, or else this one where it is wanted.
fn found_or(found: Option<Driven>, one: Driven, is_wanted: bool) -> Option<Driven>
    ensures { result ≡ option_or found (if is_wanted then Some one else None) }
{
    match found {
        Some(first) => Some(first),
        None => { if is_wanted { Some(one) } else { None } }
    }
}

// Whether a driving has another driver than the first one, where there is one.
fn differs(first: Option<Driven>, one: Driven) -> bool
    ensures { result ≡ differs first one }
{
    match first {
        Some(first) => one.driver != first.driver,
        None => false,
    }
}

// The mark after a driving more.
fn marked(mark: Mark, one: Driven) -> Mark
    ensures { result ≡ marked mark one }
{
    Mark {
        described: found_or(mark.described, one, one.line != 0),
        first: found_or(mark.first, one, true),
        second: found_or(mark.second, one, differs(mark.first, one)),
    }
}

/// The marks of so many signals, from all that is driven.
pub fn marks(alloc: Global, count: usize, driven: &[Driven]) -> Result<Vec<Mark>, NoMemory>
    requires { IsTrue (are_below count driven.now) }
    ensures { IfOk result (λ marks. AreMarks count (map driving_of driven.now) marks.items) }
{
    let mut marks = no_marks(alloc, count)?;
    mark_all(&mut marks, driven);
    Ok(marks)
}

// The marks of so many signals that nothing drives.
fn no_marks(alloc: Global, count: usize) -> Result<Vec<Mark>, NoMemory>
    ensures { IfOk result (λ marks. marks.items ≡ replicate count no_mark) }
{
    let mut marks = Vec::new(alloc);
    for _made in 0..count {
        marks.push(Mark {
            described: None,
            first: None,
            second: None,
        })?;
    }
    Ok(marks)
}

// Marks a driving.
fn mark_one(marks: &mut [Mark], one: Driven)
    requires { one.signal < length marks.old }
    ensures { marks.new ≡ slice_set marks.old one.signal (marked (slice_index_or marks.old one.signal no_mark) one) }
{
    let mark = marks[one.signal];
    marks[one.signal] = marked(mark, one);
}

// Marks all that is driven.
fn mark_all(marks: &mut [Mark], driven: &[Driven])
    requires none { marks.old ≡ replicate (length marks.old) no_mark }
    requires below { IsTrue (are_below (length marks.old) driven.now) }
    ensures { AreMarks (length marks.old) (map driving_of driven.now) marks.new }
{
    for one in driven {
        mark_one(marks, *one);
    }
}
