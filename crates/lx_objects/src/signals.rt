//! Signals as a description makes them, and whose they are.

ghost use Rattle.std.specs.Prelude.{◌≡◌, Some};
ghost use Rattle.lx_state.specs.Step.{Gives};
ghost use Rattle.lx_objects.specs.Signals.{keep_owner, new_signal, part_made, put_signal, signal_made, signal_value};

use crate::exprs::{put_expr, width_kind};
use lx_fhdl::{Expr, SigId, Signal};
use lx_shaped::Outcome;
use lx_state::machine::{Machine, Owner, What};
use lx_state::values::Value;
use lx_state::work::fault;
use lx_text::{Kind, LimitKind, Refusal, Word};

/// Adds a signal to the design.
#[tactic(auto, unfolding(crate::specs::Signals::put_signal))]
pub fn put_signal(machine: &mut Machine, line: u32, signal: Signal) -> Result<SigId, Refusal>
    ensures { Gives result machine.new (put_signal line signal machine.old) }
{
    match machine.shaped.signal(signal)? {
        Outcome::Made(id) => Ok(id),
        Outcome::Faulty(wrong) => Err(fault(line, width_kind(wrong))),
        Outcome::Misplaced => Err(fault(line, Kind::WrongKind)),
    }
}

#[tactic(auto, unfolding(crate::specs::Signals::keep_owner))]
fn keep_owner(machine: &mut Machine, object: usize, part: Option<Word>) -> Result<(), Refusal>
    ensures { Gives result machine.new (keep_owner object part machine.old) }
{
    machine.owners.push(Owner { object, part })?;
    Ok(())
}

/// Makes a further signal of the design, which is an object's own, or a part of one.
#[tactic(auto, unfolding(crate::specs::Signals::new_signal))]
pub fn new_signal(
    machine: &mut Machine,
    line: u32,
    signal: Signal,
    object: usize,
    part: Option<Word>,
) -> Result<SigId, Refusal>
    ensures { Gives result machine.new (new_signal line signal object part machine.old) }
{
    let count = machine.shaped.design().signals.len();
    machine.one_more(line, LimitKind::Signals, count)?;
    let id = put_signal(machine, line, signal)?;
    keep_owner(machine, object, part)?;
    Ok(id)
}

/// The expression that is a signal.
#[tactic(auto, unfolding(crate::specs::Signals::signal_value))]
pub fn signal_value(machine: &mut Machine, line: u32, id: SigId) -> Result<Value, Refusal>
    ensures { Gives result machine.new (signal_value line id machine.old) }
{
    let place = put_expr(machine, line, Expr::Sig(id))?;
    Ok(Value::Expr(place))
}

/// Makes a signal, which is an object.
#[tactic(auto, unfolding(crate::specs::Signals::signal_made))]
pub fn signal_made(
    machine: &mut Machine,
    line: u32,
    signal: Signal,
    given: Option<Word>,
) -> Result<Value, Refusal>
    ensures { Gives result machine.new (signal_made line signal given machine.old) }
{
    let object = machine.objects.len();
    let id = new_signal(machine, line, signal, object, None)?;
    machine.object_made(What::Signal(id), line, given)?;
    signal_value(machine, line, id)
}

/// Makes a signal that is a part of an object.
#[tactic(auto, unfolding(crate::specs::Signals::part_made))]
pub fn part_made(
    machine: &mut Machine,
    line: u32,
    signal: Signal,
    object: usize,
    part: Word,
) -> Result<Value, Refusal>
    ensures { Gives result machine.new (part_made line signal object part machine.old) }
{
    let id = new_signal(machine, line, signal, object, Some(part))?;
    signal_value(machine, line, id)
}
