//! Where FSMs were added: what stands in the design before their statements.

ghost use Rattle.std.specs.Prelude.{◌≡◌, ◌+◌, IfOk, OnOk, length, slice_get};
ghost use Rattle.lx_fragments.specs.Places.{ArePlaces, behind, first_place, noted, nowhere};

use crate::fragments::under;
use lx_description::FsmPlace;
use lx_state::machine::Machine;
use lx_text::{List, NoMemory};
use std::alloc::Global;

// More statements than can be counted are more than can be held.
fn sum(first: usize, second: usize) -> Result<usize, NoMemory>
    ensures { IfOk result (λ both. both ≡ first + second) }
{
    match first.checked_add(second) {
        Some(both) => Ok(both),
        None => Err(NoMemory),
    }
}

// Behind the own statements of a module.
fn behind(machine: &Machine, before: FsmPlace, at: usize) -> Result<FsmPlace, NoMemory>
    ensures { IfOk result (λ after. after ≡ behind before (slice_get machine.now.modules at)) }
{
    match machine.modules.get(at) {
        Some(module) => Ok(FsmPlace {
            comb: sum(before.comb, module.comb.len())?,
            sync: sum(before.sync, module.sync.len())?,
        }),
        None => Ok(before),
    }
}

// The statements of what takes part once it is made stand first.
fn first_place(machine: &Machine) -> Result<FsmPlace, NoMemory>
    ensures { IfOk result (λ place. place ≡ first_place machine.now) }
{
    Ok(FsmPlace {
        comb: sum(machine.specials.fields.len(), machine.specials.comb.len())?,
        sync: machine.specials.sync.len(),
    })
}

// Where so many modules stand that were added nowhere.
#[tactic(auto, using(crate::proofs::Placed::one_more))]
fn nowhere(alloc: Global, count: usize) -> Result<List<Option<FsmPlace>>, NoMemory>
    ensures { IfOk result (λ places. places ≡ nowhere count) }
{
    let mut places = List::new(alloc);
    for _passed in 0..count {
        places.push(None)?;
    }
    Ok(places)
}

// Notes where a module stands, unless that is noted.
fn note(places: &mut List<Option<FsmPlace>>, at: usize, place: FsmPlace)
    ensures { places.new ≡ noted places.old at place }
{
    if let Some(None) = places.get(at) {
        places.replace(at, Some(place));
    }
}

/// Where each module stands among those that were added to the top or below.
#[tactic(auto, using(crate::proofs::Placed::noted_start))]
pub fn places(
    machine: &Machine,
    alloc: Global,
    top: usize,
) -> Result<List<Option<FsmPlace>>, NoMemory>
    ensures { IfOk result (λ places. ArePlaces machine.now top places) }
{
    let all = under(machine, alloc, top)?;
    let mut places = nowhere(alloc, machine.modules.len())?;
    let mut before = first_place(machine)?;
    for at in all.as_slice() {
        note(&mut places, *at, before);
        before = behind(machine, before, *at)?;
    }
    Ok(places)
}
