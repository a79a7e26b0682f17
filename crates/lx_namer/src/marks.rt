//! Which signals are ports, or resets of domains.

ghost use Rattle.std.specs.Prelude.{[], ◌∷◌, false, length, map, IfOk};
ghost use Rattle.lx_fhdl.specs.Designs.{signal_number};
ghost use Rattle.lx_namer.specs.Marks.{AreMarked, AreMarkedToo, ports_and_resets, reset_numbers};

use lx_fhdl::{Design, SigId};
use lx_text::NoMemory;
use std::alloc::Global;

// No mark for so many signals.
fn no_marks(alloc: Global, count: usize) -> Result<Vec<bool>, NoMemory>
    ensures { IfOk result (λ marks. AreMarked count [] marks.items) }
{
    let mut marks = Vec::new(alloc);
    for _made in 0..count {
        marks.push(false)?;
    }
    Ok(marks)
}

fn mark(marks: &mut [bool], x: SigId)
    ensures { AreMarkedToo marks.old marks.new (x.0 ∷ []) }
{
    if x.0 < marks.len() {
        marks[x.0] = true;
    }
}

fn mark_reset(marks: &mut [bool], reset: Option<SigId>)
    ensures { AreMarkedToo marks.old marks.new (reset_numbers reset) }
{
    if let Some(reset) = reset {
        mark(marks, reset);
    }
}

fn mark_ports(design: &Design, marks: &mut [bool])
    requires { AreMarked (length design.now.signals) [] marks.old }
    ensures { AreMarked (length design.now.signals) (map signal_number design.now.ios) marks.new }
{
    for x in design.ios.as_slice() {
        mark(marks, *x);
    }
}

fn mark_resets(design: &Design, marks: &mut [bool])
    requires { AreMarked (length design.now.signals) (map signal_number design.now.ios) marks.old }
    ensures { AreMarked (length design.now.signals) (ports_and_resets design.now) marks.new }
{
    for domain in design.domains.as_slice() {
        mark_reset(marks, domain.reset);
    }
}

// Whether each signal is a port or a reset.
pub(crate) fn marks(alloc: Global, design: &Design) -> Result<Vec<bool>, NoMemory>
    ensures { IfOk result (λ marks. AreMarked (length design.now.signals) (ports_and_resets design.now) marks.items) }
{
    let mut marks = no_marks(alloc, design.signals.len())?;
    mark_ports(design, marks.as_mut_slice());
    mark_resets(design, marks.as_mut_slice());
    Ok(marks)
}
