//! The signals of an order, and the fault that tells a cycle.

ghost use Rattle.std.specs.Prelude.{◌≡◌, length, map, IfOk, IsTrue};
ghost use Rattle.lx_reads.specs.Drivings.{drivings};
ghost use Rattle.lx_check.specs.Faults.{signal_name};
ghost use Rattle.lx_check.specs.Loops.{loop_fault, numbers_of};
ghost use Rattle.lx_check.specs.Marks.{AreMarks};
ghost use Rattle.lx_check.specs.Orders.{are_under, line_among, signals_among};

use crate::faults::signal_name;
use crate::marks::Mark;
use lx_fhdl::{Design, SigId};
use lx_text::{Fault, Kind, List, NoMemory, Word};
use std::alloc::Global;

/// The signals among the nodes, of which so many are signals.
pub fn signals_among(alloc: Global, count: usize, nodes: &[usize]) -> Result<List<SigId>, NoMemory>
    ensures { IfOk result (λ order. numbers_of order ≡ signals_among count nodes.now) }
{
    let mut order = List::new(alloc);
    for node in nodes {
        if *node < count {
            order.push(SigId(*node))?;
        }
    }
    Ok(order)
}

// The base names of signals.
fn names(alloc: Global, design: &Design, cycle: &[usize]) -> Result<List<Word>, NoMemory>
    requires { IsTrue (are_under (length design.now.signals) cycle.now) }
    ensures { IfOk result (λ names. names ≡ map (signal_name design.now) cycle.now) }
{
    let mut names = List::new(alloc);
    for x in cycle {
        let name = signal_name(alloc, design, *x)?;
        names.push(name)?;
    }
    Ok(names)
}

// The line of the first driving of the first signal.
fn first_line(marks: &[Mark], cycle: &[usize]) -> u32
    requires { IsTrue (are_under (length marks.now) cycle.now) }
    ensures { result ≡ line_among marks.now cycle.now }
{
    match cycle {
        [] => 0,
        [x, ..] => match marks[*x].first {
            Some(one) => one.line,
            None => 0,
        },
    }
}

/// The fault that tells a cycle.
pub fn loop_fault(
    alloc: Global,
    design: &Design,
    marks: &[Mark],
    cycle: &[usize],
) -> Result<Fault, NoMemory>
    requires marks { AreMarks (length design.now.signals) (drivings design.now) marks.now }
    requires signals { IsTrue (are_under (length design.now.signals) cycle.now) }
    ensures { IfOk result (λ fault. fault ≡ loop_fault design.now cycle.now) }
{
    Ok(Fault {
        line: first_line(marks, cycle),
        kind: Kind::CombLoop(names(alloc, design, cycle)?),
    })
}
