//! Lists of signals.

ghost use Rattle.std.specs.Prelude.{◌≡◌, slice_get};
ghost use Rattle.lx_state.specs.Step.{Gives};
ghost use Rattle.lx_objects.specs.Ios.{ios_of, signal_at, signal_node, signal_of, signals_of};

use lx_fhdl::{Expr, ExprId, SigId};
use lx_state::machine::Machine;
use lx_state::values::Value;
use lx_state::work::fault;
use lx_text::{Kind, List, Refusal};
use std::alloc::Global;

fn signal_node(machine: &Machine, id: ExprId) -> Option<SigId>
    ensures { result ≡ signal_node (slice_get machine.now.shaped.exprs id.place) }
{
    match machine.shaped.node(id) {
        Some(Expr::Sig(signal)) => Some(*signal),
        _ => None,
    }
}

/// The signal that a value is.
pub fn signal_at(machine: &Machine, value: Value) -> Option<SigId>
    ensures { result ≡ signal_at machine.now value }
{
    match value {
        Value::Expr(id) => signal_node(machine, id),
        _ => None,
    }
}

/// The signal that a value must be.
#[tactic(auto, unfolding(crate::specs::Ios::signal_of))]
pub fn signal_of(machine: &Machine, line: u32, value: Value) -> Result<SigId, Refusal>
    ensures { Gives result machine.now (signal_of line value machine.now) }
{
    match signal_at(machine, value) {
        Some(signal) => Ok(signal),
        None => Err(fault(line, Kind::WrongKind)),
    }
}

/// The signals that some values must be.
#[tactic(auto, unfolding(crate::specs::Ios::signals_of))]
pub fn signals_of(
    machine: &Machine,
    alloc: Global,
    line: u32,
    values: &[Value],
) -> Result<List<SigId>, Refusal>
    ensures { Gives result machine.now (signals_of line values.now machine.now) }
{
    let mut signals = List::new(alloc);
    for value in values {
        let signal = signal_of(machine, line, *value)?;
        if signals.push(signal).is_err() {
            return Err(Refusal::NoMemory);
        }
    }
    Ok(signals)
}

/// The signals of a list, as of the top's `ios`.
#[tactic(auto, unfolding(crate::specs::Ios::ios_of))]
pub fn ios_of(
    machine: &Machine,
    alloc: Global,
    line: u32,
    value: Value,
) -> Result<List<SigId>, Refusal>
    ensures { Gives result machine.now (ios_of line value machine.now) }
{
    let values = machine.list_of(alloc, line, value)?;
    signals_of(machine, alloc, line, values.as_slice())
}
