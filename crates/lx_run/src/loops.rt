//! Names that loops and comprehensions bind.

ghost use Rattle.std.specs.Prelude.{◌≡◌, length};
ghost use Rattle.lx_state.specs.Step.{Gives};
ghost use Rattle.lx_run.specs.Loops.{items_bound, name_hidden, names_bound, names_hidden, names_restored, names_set};
ghost use Rattle.lx_run.specs.Meant.{texts};

use lx_state::machine::Machine;
use lx_state::values::Value;
use lx_state::work::fault;
use lx_syntax::Syntax;
use lx_text::{Kind, List, Refusal, Word};
use lx_token::Token;
use std::alloc::Global;

// Binds each name to its value.
#[tactic(auto, unfolding(crate::specs::Loops::names_set))]
fn names_set(
    machine: &mut Machine,
    alloc: Global,
    syntax: &Syntax,
    line: u32,
    names: &[Token],
    values: &[Value],
) -> Result<(), Refusal>
    requires { length values.now ≡ length names.now }
    ensures { Gives result machine.new (names_set line (texts syntax.now names.now) values.now machine.old) }
{
    for (place, name) in names.iter().enumerate() {
        machine.set_local(alloc, line, syntax.text(name), values[place])?;
    }
    Ok(())
}

// Binds names to the items of a value.
#[tactic(auto, unfolding(crate::specs::Loops::items_bound))]
fn items_bound(
    machine: &mut Machine,
    alloc: Global,
    syntax: &Syntax,
    line: u32,
    names: &[Token],
    value: Value,
) -> Result<(), Refusal>
    ensures { Gives result machine.new (items_bound line (texts syntax.now names.now) value machine.old) }
{
    let items = machine.items_of(alloc, line, value)?;
    if items.len() == names.len() {
        names_set(machine, alloc, syntax, line, names, items.as_slice())
    } else {
        Err(fault(line, Kind::WrongCount))
    }
}

/// Binds one name to an item, or several to the items of the item.
#[tactic(auto, unfolding(crate::specs::Loops::names_bound))]
pub(crate) fn names_bound(
    machine: &mut Machine,
    alloc: Global,
    syntax: &Syntax,
    line: u32,
    names: &[Token],
    value: Value,
) -> Result<(), Refusal>
    ensures { Gives result machine.new (names_bound line (texts syntax.now names.now) value machine.old) }
{
    match names {
        [name] => machine.set_local(alloc, line, syntax.text(name), value),
        [] => items_bound(machine, alloc, syntax, line, names, value),
        [_first, _second, ..] => items_bound(machine, alloc, syntax, line, names, value),
    }
}

/// A name, and what was under it before a comprehension took it.
#[derive(Drop)]
pub struct Hidden {
    pub name: Word,
    pub before: Option<Value>,
}

// Sets aside what stands under a name.
#[tactic(auto, unfolding(crate::specs::Loops::name_hidden))]
fn name_hidden(machine: &mut Machine, alloc: Global, name: &[u8]) -> Result<Hidden, Refusal>
    ensures { Gives result machine.new (name_hidden name.now machine.old) }
{
    let name = Word::new(alloc, name)?;
    let before = machine.hide(name.as_bytes());
    Ok(Hidden { name, before })
}

/// Sets aside what stands under names.
#[tactic(auto, unfolding(crate::specs::Loops::names_hidden))]
pub(crate) fn names_hidden(
    machine: &mut Machine,
    alloc: Global,
    syntax: &Syntax,
    names: &[Token],
) -> Result<List<Hidden>, Refusal>
    ensures { Gives result machine.new (names_hidden (texts syntax.now names.now) machine.old) }
{
    let mut hidden = List::new(alloc);
    for name in names {
        hidden.push(name_hidden(machine, alloc, syntax.text(name))?)?;
    }
    Ok(hidden)
}

/// What was under names is there again.
#[tactic(auto, using(crate::proofs::Restored::restored_last), unfolding(crate::specs::Loops::names_restored))]
pub(crate) fn names_restored(machine: &mut Machine, hidden: List<Hidden>) -> Result<(), Refusal>
    ensures { Gives result machine.new (names_restored hidden machine.old) }
{
    let mut rest = hidden;
    'hidden: while let Some(last) = rest.pop() {
        machine.restore(last.name.as_bytes(), last.before)?;
    }
    Ok(())
}
