//! Which signals are ports.

ghost use Rattle.std.specs.Prelude.{◌≡◌, ◌<◌, false, length, option_map, replicate, IfOk, IfSome};
ghost use Rattle.lx_fhdl.specs.Designs.{signal_number};
ghost use Rattle.lx_drives.specs.Marks.{AreAmong, AreResetsToo, IsMarkedToo};
ghost use Rattle.lx_sheet.specs.Marks.{AreMarks};

use crate::lowered::Lowered;
use lx_fhdl::Domain;
use lx_text::{List, NoMemory};
use std::alloc::Global;

/// No mark for so many signals.
fn no_marks(alloc: Global, count: usize) -> Result<Vec<bool>, NoMemory>
    ensures { IfOk result (λ marks. marks.items ≡ replicate count false) }
{
    let mut marks = Vec::new(alloc);
    for _made in 0..count {
        marks.push(false)?;
    }
    Ok(marks)
}

/// Marks the signals that the design names as ports.
fn mark_ios(lowered: &Lowered, marks: &mut [bool])
    requires none { marks.old ≡ replicate (length lowered.now.signals) false }
    ensures { AreAmong lowered.now lowered.now.ios marks.new }
{
    for x in lowered.design.ios.as_slice() {
        marks[x.0] = true;
    }
}

/// Marks the reset of a domain, where it has one.
fn mark_reset(marks: &mut [bool], domain: &Domain)
    requires { IfSome domain.now.reset (λ r. r.0 < length marks.old) }
    ensures { IsMarkedToo marks.old marks.new (option_map signal_number domain.now.reset) }
{
    if let Some(reset) = domain.reset {
        marks[reset.0] = true;
    }
}

/// Marks the resets of the domains.
fn mark_resets(lowered: &Lowered, marks: &mut [bool])
    requires ios { AreAmong lowered.now lowered.now.ios marks.old }
    ensures { AreResetsToo lowered.now lowered.now.domains marks.new }
{
    for domain in lowered.design.domains.as_slice() {
        mark_reset(marks, domain);
    }
}

/// Marks the ports, and the resets of the domains.
fn mark_all(lowered: &Lowered, marks: &mut [bool])
    requires none { marks.old ≡ replicate (length lowered.now.signals) false }
    ensures { AreMarks lowered.now marks.new }
{
    mark_ios(lowered, marks);
    mark_resets(lowered, marks);
}

/// Whether each signal is a port, or a domain's reset.
pub fn marks(alloc: Global, lowered: &Lowered) -> Result<List<bool>, NoMemory>
    ensures { IfOk result (λ marks. AreMarks lowered.now marks) }
{
    let mut marks = no_marks(alloc, lowered.design.signals.len())?;
    mark_all(lowered, marks.as_mut_slice());
    Ok(List::from_vec(marks))
}
