//! The event managers of a description: each has a source.

ghost use Rattle.std.specs.Prelude.{◌≡◌, option_copied};
ghost use Rattle.std.specs.List.{find};
ghost use Rattle.lx_state.specs.Step.{Gives};
ghost use Rattle.lx_describe.specs.Managers.{all_have_sources, has_no_source};

use crate::fsms::object_line;
use lx_state::machine::{Machine, ManagerState};
use lx_state::work::fault;
use lx_text::{Kind, Refusal};

fn has_no_source(manager: &ManagerState) -> bool
    ensures { result ≡ has_no_source manager.now }
{
    manager.sources.is_empty()
}

// The first event manager without a source.
fn first_without(machine: &Machine) -> Option<&ManagerState>
    ensures { option_copied result ≡ find has_no_source machine.now.managers }
{
    for manager in machine.managers.as_slice() {
        if has_no_source(manager) {
            return Some(manager);
        }
    }
    None
}

/// Finds the first event manager without a source (WrongCount, with the line of its call), in order of making, whether it was
/// added or not.
#[tactic(auto, unfolding(crate::specs::Managers::all_have_sources))]
pub fn all_have_sources(machine: &Machine) -> Result<(), Refusal>
    ensures { Gives result machine.now (all_have_sources machine.now) }
{
    match first_without(machine) {
        Some(manager) => Err(fault(object_line(machine, manager.object), Kind::WrongCount)),
        None => Ok(()),
    }
}
