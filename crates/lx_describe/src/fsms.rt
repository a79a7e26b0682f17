//! The FSMs of a description, in order of creation.

ghost use Rattle.std.specs.Prelude.{◌≡◌, ◌++◌, IfOk, None, OnOk, map, slice_get, slice_index_or};
ghost use Rattle.lx_describe.specs.Fsms.{all_fsms, asked_at, asked_of, decl_at, fsm_decl, fsm_made, fsm_places, fsms_made, object_line};
ghost use Rattle.lx_state.specs.Step.{Gives};

use lx_description::{Asked, FsmDecl, FsmPlace, StateDecl};
use lx_fragments::places::places;
use lx_fragments::states::{bodies_of, states_of};
use lx_state::machine::{Fsm, Machine};
use lx_state::work::fault;
use lx_text::{Kind, List, NoMemory, Refusal, Word};
use std::alloc::Global;

/// The line on which an object was made.
pub fn object_line(machine: &Machine, at: usize) -> u32
    ensures { result ≡ object_line (slice_get machine.now.objects at) }
{
    match machine.objects.get(at) {
        Some(object) => object.line,
        None => 0,
    }
}

// ---- what a machine says of an FSM

// Adds what was asked for at a place.
fn push_asked(
    into: &mut List<Asked>,
    alloc: Global,
    fsm: &Fsm,
    place: usize,
) -> Result<(), NoMemory>
    ensures { OnOk result (into.new ≡ into.old ++ asked_at (slice_get fsm.now.asked place)) }
{
    match fsm.asked.at(place) {
        Some((name, ongoing)) => {
            let name = Word::new(alloc, name)?;
            into.push(Asked {
                name,
                signal: ongoing.signal,
                line: ongoing.line,
            })
        }
        None => Ok(()),
    }
}

// The signals that are `ongoing` of states.
#[tactic(auto, using(crate::proofs::Asked::asked_end))]
fn asked_of(alloc: Global, fsm: &Fsm) -> Result<List<Asked>, NoMemory>
    ensures { IfOk result (λ list. list ≡ map asked_of fsm.now.asked) }
{
    let mut list = List::new(alloc);
    for place in 0..fsm.asked.len() {
        push_asked(&mut list, alloc, fsm, place)?;
    }
    Ok(list)
}

fn start_of(alloc: Global, fsm: &Fsm) -> Result<Option<Word>, NoMemory>
    ensures { IfOk result (λ start. start ≡ fsm.now.start) }
{
    match &fsm.start {
        Some(name) => Ok(Some(name.copied(alloc)?)),
        None => Ok(None),
    }
}

fn fsm_decl(
    machine: &Machine,
    alloc: Global,
    place: Option<FsmPlace>,
    states: List<StateDecl>,
    fsm: &Fsm,
) -> Result<FsmDecl, NoMemory>
    ensures { IfOk result (λ decl. decl ≡ fsm_decl machine.now place states fsm.now) }
{
    let start = start_of(alloc, fsm)?;
    let asked = asked_of(alloc, fsm)?;
    Ok(FsmDecl {
        state: fsm.state,
        start,
        states,
        asked,
        place,
        line: object_line(machine, fsm.object),
    })
}

#[tactic(auto, unfolding(crate::specs::Fsms::decl_at))]
fn decl_at(
    machine: &Machine,
    alloc: Global,
    number: usize,
    place: Option<FsmPlace>,
    states: List<StateDecl>,
) -> Result<FsmDecl, Refusal>
    ensures { Gives result machine.now (decl_at number place states machine.now) }
{
    match machine.fsms.get(number) {
        Some(fsm) => Ok(fsm_decl(machine, alloc, place, states, fsm)?),
        None => Err(fault(0, Kind::WrongKind)),
    }
}

// The FSM of a number, whose states are laid out.
#[tactic(auto, unfolding(crate::specs::Fsms::fsm_made))]
fn fsm_made(
    machine: &mut Machine,
    alloc: Global,
    number: usize,
    place: Option<FsmPlace>,
) -> Result<FsmDecl, Refusal>
    ensures { Gives result machine.new (fsm_made number place machine.old) }
{
    let bodies = bodies_of(machine, alloc, number)?;
    let states = states_of(machine, alloc, bodies.as_slice())?;
    decl_at(machine, alloc, number, place, states)
}

// ---- all of them

// The place of a module, by those of all.
fn place_at(places: &[Option<FsmPlace>], at: usize) -> Option<FsmPlace>
    ensures { result ≡ slice_index_or places.now at None }
{
    match places.get(at) {
        Some(place) => *place,
        None => None,
    }
}

// Where each FSM was added.
#[tactic(auto, using(crate::proofs::Placed::placed_more))]
fn fsm_places(
    machine: &Machine,
    alloc: Global,
    top: usize,
) -> Result<List<Option<FsmPlace>>, NoMemory>
    ensures { IfOk result (λ list. list ≡ fsm_places machine.now top) }
{
    let places = places(machine, alloc, top)?;
    let mut list = List::new(alloc);
    for fsm in machine.fsms.as_slice() {
        list.push(place_at(places.as_slice(), fsm.module))?;
    }
    Ok(list)
}

#[tactic(auto, unfolding(crate::specs::Fsms::fsms_made))]
fn fsms_made(
    machine: &mut Machine,
    alloc: Global,
    places: &[Option<FsmPlace>],
) -> Result<List<FsmDecl>, Refusal>
    ensures { Gives result machine.new (fsms_made 0 places.now machine.old) }
{
    let mut decls = List::new(alloc);
    for (number, place) in places.iter().enumerate() {
        let decl = fsm_made(machine, alloc, number, *place)?;
        if decls.push(decl).is_err() {
            return Err(Refusal::NoMemory);
        }
    }
    Ok(decls)
}

/// The FSMs of a machine, whose statements are laid out.
#[tactic(auto, unfolding(crate::specs::Fsms::all_fsms))]
pub fn all_fsms(machine: &mut Machine, alloc: Global, top: usize) -> Result<List<FsmDecl>, Refusal>
    ensures { Gives result machine.new (all_fsms top machine.old) }
{
    let places = fsm_places(machine, alloc, top)?;
    fsms_made(machine, alloc, places.as_slice())
}
