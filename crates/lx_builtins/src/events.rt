//! Event managers and sources of events.

ghost use Rattle.std.specs.Prelude.{◌≡◌, IfOk};
ghost use Rattle.lx_state.specs.Step.{Gives};
ghost use Rattle.lx_builtins.specs.Events.{edge_named, edge_of, edge_or, event_manager_called, finalize_called, process_params, source_called, source_process_called};

use crate::arguments::{Arguments, argument, bound_to, no_argument, optional};
use lx_description::SourceKind;
use lx_objects::events::{manager_made, source_made};
use lx_state::work::fault;
use lx_state::{Machine, Value};
use lx_text::{Kind, List, NoMemory, Refusal};
use lx_value::Param;
use std::alloc::Global;

/// `EventManager()`.
#[tactic(auto, unfolding(crate::specs::Events::event_manager_called))]
pub fn event_manager_called(
    machine: &mut Machine,
    alloc: Global,
    line: u32,
    args: &Arguments,
) -> Result<Value, Refusal>
    ensures { Gives result machine.new (event_manager_called line args.now machine.old) }
{
    no_argument(machine, line, args)?;
    manager_made(machine, alloc, line)
}

/// `finalize()` of an event manager, which has no effect.
#[tactic(auto, unfolding(crate::specs::Events::finalize_called))]
pub fn finalize_called(machine: &Machine, line: u32, args: &Arguments) -> Result<Value, Refusal>
    ensures { Gives result machine.now (finalize_called line args.now machine.now) }
{
    no_argument(machine, line, args)?;
    Ok(Value::Nothing)
}

/// `EventSourcePulse()` and `EventSourceLevel()`, which take nothing.
#[tactic(auto, unfolding(crate::specs::Events::source_called))]
pub fn source_called(
    machine: &mut Machine,
    alloc: Global,
    line: u32,
    kind: SourceKind,
    args: &Arguments,
) -> Result<Value, Refusal>
    ensures { Gives result machine.new (source_called line kind args.now machine.old) }
{
    no_argument(machine, line, args)?;
    source_made(machine, alloc, line, kind)
}

fn process_params(alloc: Global) -> Result<List<Param>, NoMemory>
    ensures { IfOk result (λ params. params ≡ process_params) }
{
    List::of_one(alloc, optional(alloc, b"edge")?)
}

fn edge_named(name: &[u8]) -> Option<SourceKind>
    ensures { result ≡ edge_named name.now }
{
    if name == b"falling".as_slice() {
        Some(SourceKind::Falling)
    } else if name == b"rising".as_slice() {
        Some(SourceKind::Rising)
    } else {
        None
    }
}

#[tactic(auto, unfolding(crate::specs::Events::edge_of))]
fn edge_of(machine: &Machine, alloc: Global, line: u32, value: Value) -> Result<SourceKind, Refusal>
    ensures { Gives result machine.now (edge_of line value machine.now) }
{
    let name = machine.text_of(alloc, line, value)?;
    match edge_named(name.as_bytes()) {
        Some(edge) => Ok(edge),
        None => Err(fault(line, Kind::WrongKind)),
    }
}

// The falling edge where none is given.
fn edge_or(
    machine: &Machine,
    alloc: Global,
    line: u32,
    value: Option<Value>,
) -> Result<SourceKind, Refusal>
    ensures { Gives result machine.now (edge_or line value machine.now) }
{
    match value {
        Some(value) => edge_of(machine, alloc, line, value),
        None => Ok(SourceKind::Falling),
    }
}

/// `EventSourceProcess(edge="falling")`, or `"rising"`; another value is WrongKind.
#[tactic(auto, unfolding(crate::specs::Events::source_process_called))]
pub fn source_process_called(
    machine: &mut Machine,
    alloc: Global,
    line: u32,
    args: &Arguments,
) -> Result<Value, Refusal>
    ensures { Gives result machine.new (source_process_called line args.now machine.old) }
{
    let params = process_params(alloc)?;
    let values = bound_to(machine, alloc, line, params.as_slice(), args)?;
    let edge = edge_or(machine, alloc, line, argument(values.as_slice(), 0))?;
    source_made(machine, alloc, line, edge)
}
