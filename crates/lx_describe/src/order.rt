//! The modules of a description in their order.

ghost use Rattle.std.specs.Prelude.{◌≡◌, ◌++◌, IfOk, OnOk};
ghost use Rattle.lx_describe.specs.Order.{all_ordered, in_order, ordered};

use crate::submodules::submodules;
use lx_state::machine::{Machine, Submodule};
use lx_text::{List, NoMemory};
use std::alloc::Global;

// Adds a module, then its submodules, each followed by its own.
#[cycle(push_ordered)]
#[tactic(auto, unfolding(crate::specs::Order::ordered))]
fn push_ordered(
    into: &mut List<Submodule>,
    machine: &Machine,
    alloc: Global,
    levels: u8,
    first: Submodule,
) -> Result<(), NoMemory>
    ensures { OnOk result (into.new ≡ into.old ++ ordered machine.now levels first) }
{
    if levels == 0 {
        return Ok(());
    }
    into.push(first)?;
    let below = submodules(machine, alloc, first.place)?;
    push_all_ordered(into, machine, alloc, levels - 1, below.as_slice())
}

#[cycle(push_ordered)]
#[tactic(auto, unfolding(crate::specs::Order::all_ordered))]
fn push_all_ordered(
    into: &mut List<Submodule>,
    machine: &Machine,
    alloc: Global,
    levels: u8,
    modules: &[Submodule],
) -> Result<(), NoMemory>
    ensures { OnOk result (into.new ≡ into.old ++ all_ordered (ordered machine.now levels) modules.now) }
{
    for next in modules {
        push_ordered(into, machine, alloc, levels, *next)?;
    }
    Ok(())
}

/// The top and the modules that were added to it or below: each behind the one that it was added to.
pub fn in_order(machine: &Machine, alloc: Global, top: usize) -> Result<List<Submodule>, NoMemory>
    ensures { IfOk result (λ list. list ≡ in_order machine.now top) }
{
    let mut list = List::new(alloc);
    let top = Submodule {
        place: top,
        named: true,
    };
    push_ordered(&mut list, machine, alloc, 64, top)?;
    Ok(list)
}
