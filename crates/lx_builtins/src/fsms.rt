//! `FSM`, `NextState` and `NextValue`, and the methods of FSMs.

ghost use Rattle.std.specs.Prelude.{◌≡◌, IfOk};
ghost use Rattle.lx_state.specs.Step.{Gives};
ghost use Rattle.lx_builtins.specs.Fsms.{act_called, act_from, act_under, fsm_called, fsm_params, next_state_called, next_state_from, next_value_called, ongoing_called, start_from, start_of, state_name};

use crate::arguments::{Arguments, argument, bound_to, one, optional, two, unnamed};
use lx_objects::fsms::{act_made, fsm_made, ongoing_made};
use lx_objects::statements::next_state_made;
use lx_ops::targets::assign_next;
use lx_state::work::fault;
use lx_state::{Machine, Value};
use lx_text::{Kind, List, NoMemory, Refusal, Word};
use lx_value::Param;
use std::alloc::Global;

// The name of a state: any text of at most as many bytes as a name may have.
#[tactic(auto, unfolding(crate::specs::Fsms::state_name))]
fn state_name(machine: &Machine, alloc: Global, line: u32, value: Value) -> Result<Word, Refusal>
    ensures { Gives result machine.now (state_name line value machine.now) }
{
    let name = machine.text_of(alloc, line, value)?;
    machine.name_fits(line, name.as_bytes())?;
    Ok(name)
}

fn fsm_params(alloc: Global) -> Result<List<Param>, NoMemory>
    ensures { IfOk result (λ params. params ≡ fsm_params) }
{
    List::of_one(alloc, optional(alloc, b"reset_state")?)
}

fn start_from(
    machine: &Machine,
    alloc: Global,
    line: u32,
    value: Value,
) -> Result<Option<Word>, Refusal>
    ensures { Gives result machine.now (start_from line value machine.now) }
{
    match value {
        Value::Nothing => Ok(None),
        _ => {
            let name = state_name(machine, alloc, line, value)?;
            Ok(Some(name))
        }
    }
}

// The stated first state, if there is one.
fn start_of(
    machine: &Machine,
    alloc: Global,
    line: u32,
    value: Option<Value>,
) -> Result<Option<Word>, Refusal>
    ensures { Gives result machine.now (start_of line value machine.now) }
{
    match value {
        Some(value) => start_from(machine, alloc, line, value),
        None => Ok(None),
    }
}

/// `FSM(reset_state=None)`.
#[tactic(auto, unfolding(crate::specs::Fsms::fsm_called))]
pub fn fsm_called(
    machine: &mut Machine,
    alloc: Global,
    line: u32,
    args: &Arguments,
) -> Result<Value, Refusal>
    ensures { Gives result machine.new (fsm_called line args.now machine.old) }
{
    let params = fsm_params(alloc)?;
    let values = bound_to(machine, alloc, line, params.as_slice(), args)?;
    let start = start_of(machine, alloc, line, argument(values.as_slice(), 0))?;
    fsm_made(machine, alloc, line, start)
}

#[tactic(auto, unfolding(crate::specs::Fsms::act_under))]
fn act_under(
    machine: &mut Machine,
    alloc: Global,
    line: u32,
    at: usize,
    value: Value,
    values: &[Value],
) -> Result<Value, Refusal>
    ensures { Gives result machine.new (act_under line at value values.now machine.old) }
{
    let name = state_name(machine, alloc, line, value)?;
    act_made(machine, alloc, line, at, name.as_bytes(), values)
}

fn act_from(
    machine: &mut Machine,
    alloc: Global,
    line: u32,
    at: usize,
    values: &[Value],
) -> Result<Value, Refusal>
    ensures { Gives result machine.new (act_from line at values.now machine.old) }
{
    match values {
        [] => Err(fault(line, Kind::WrongCount)),
        [name, rest @ ..] => act_under(machine, alloc, line, at, *name, rest),
    }
}

/// `act` of an FSM.
#[tactic(auto, unfolding(crate::specs::Fsms::act_called))]
pub fn act_called(
    machine: &mut Machine,
    alloc: Global,
    line: u32,
    at: usize,
    args: Arguments,
) -> Result<Value, Refusal>
    ensures { Gives result machine.new (act_called line at args machine.old) }
{
    let values = unnamed(machine, line, args)?;
    act_from(machine, alloc, line, at, values.as_slice())
}

/// `ongoing` of an FSM.
#[tactic(auto, unfolding(crate::specs::Fsms::ongoing_called))]
pub fn ongoing_called(
    machine: &mut Machine,
    alloc: Global,
    line: u32,
    at: usize,
    args: &Arguments,
) -> Result<Value, Refusal>
    ensures { Gives result machine.new (ongoing_called line at args.now machine.old) }
{
    let value = one(machine, alloc, line, b"name", args)?;
    let name = state_name(machine, alloc, line, value)?;
    ongoing_made(machine, alloc, line, at, name.as_bytes())
}

fn next_state_from(machine: &mut Machine, line: u32, value: Value) -> Result<Value, Refusal>
    ensures { Gives result machine.new (next_state_from line value machine.old) }
{
    match value {
        Value::Text(at) => next_state_made(machine, line, at),
        _ => Err(fault(line, Kind::WrongKind)),
    }
}

/// `NextState(name)`.
#[tactic(auto, unfolding(crate::specs::Fsms::next_state_called))]
pub fn next_state_called(
    machine: &mut Machine,
    alloc: Global,
    line: u32,
    args: &Arguments,
) -> Result<Value, Refusal>
    ensures { Gives result machine.new (next_state_called line args.now machine.old) }
{
    let value = one(machine, alloc, line, b"name", args)?;
    state_name(machine, alloc, line, value)?;
    next_state_from(machine, line, value)
}

/// `NextValue(signal, e)`.
#[tactic(auto, unfolding(crate::specs::Fsms::next_value_called))]
pub fn next_value_called(
    machine: &mut Machine,
    alloc: Global,
    line: u32,
    args: &Arguments,
) -> Result<Value, Refusal>
    ensures { Gives result machine.new (next_value_called line args.now machine.old) }
{
    let (target, value) = two(machine, alloc, line, b"signal", b"e", args)?;
    assign_next(machine, alloc, line, target, value)
}
