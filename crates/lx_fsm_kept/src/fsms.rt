//! Whether an FSM is such as descriptions have: its names are distinct, its statements are there and no more than 64 deep,
//! its signals have the right bits, and its place is one of the design's.

ghost use Rattle.std.specs.Prelude.{◌≡◌, ◌≤◌, ◌&&◌, ◌||◌, length, map, nat_eq, nat_le};
ghost use Rattle.std.specs.List.{list_all, list_any};
ghost use Rattle.std.specs.Str.{bytes_eq};
ghost use Rattle.lx_fhdl.specs.Keeping as keeping;
ghost use Rattle.lx_fhdl.specs.Kept as given;
ghost use Rattle.lx_description.specs.Below.{all_fsm_below};
ghost use Rattle.lx_description.specs.Kept as kept;
ghost use Rattle.lx_description.specs.declared.fsms.Asked.{Asked};
ghost use Rattle.lx_description.specs.declared.fsms.StateDecl.{StateDecl};
ghost use Rattle.lx_fsm_kept.specs.Depths.{AreDepths};
ghost use Rattle.lx_fsm_kept.specs.Names.{asked_names, state_names};

use crate::depths::deepest;
use crate::signals::{holds_states, is_unsigned};
use lx_description::{Asked, Description, FsmDecl, FsmPlace, FsmStmtId, StateDecl};
use lx_fhdl::Design;

// ---- names

fn is_state(name: &[u8], states: &[StateDecl]) -> bool
    ensures { result ≡ list_any (bytes_eq name.now) (state_names states.now) }
{
    for state in states {
        if name == state.name.as_bytes() {
            return true;
        }
    }
    false
}

fn states_distinct(states: &[StateDecl]) -> bool
    ensures { result ≡ keeping.is_distinct (state_names states.now) }
{
    for (place, state) in states.iter().enumerate() {
        if is_state(state.name.as_bytes(), &states[place + 1..]) {
            return false;
        }
    }
    true
}

fn is_asked(name: &[u8], all: &[Asked]) -> bool
    ensures { result ≡ list_any (bytes_eq name.now) (asked_names all.now) }
{
    for asked in all {
        if name == asked.name.as_bytes() {
            return true;
        }
    }
    false
}

fn asked_distinct(all: &[Asked]) -> bool
    ensures { result ≡ keeping.is_distinct (asked_names all.now) }
{
    for (place, asked) in all.iter().enumerate() {
        if is_asked(asked.name.as_bytes(), &all[place + 1..]) {
            return false;
        }
    }
    true
}

// ---- statements

fn all_below(ids: &[FsmStmtId], count: usize) -> bool
    ensures { result ≡ all_fsm_below count ids.now }
{
    for id in ids {
        if id.place >= count {
            return false;
        }
    }
    true
}

// Whether the statements of a state are there, and at most 64 deep.
#[tactic(auto, using(crate::proofs::Bodies::body_missing, crate::proofs::Bodies::body_told))]
fn is_body(description: &Description, depths: &[u8], state: &StateDecl) -> bool
    requires { AreDepths description.now.design description.now.fsm_stmts (length description.now.fsm_stmts) depths.now }
    ensures { result ≡ kept.is_body description.now state.now }
{
    if !all_below(state.body.as_slice(), description.fsm_stmts.len()) {
        return false;
    }
    deepest(depths, state.body.as_slice()) <= 64
}

fn are_bodies(description: &Description, depths: &[u8], states: &[StateDecl]) -> bool
    requires { AreDepths description.now.design description.now.fsm_stmts (length description.now.fsm_stmts) depths.now }
    ensures { result ≡ list_all (kept.is_body description.now) states.now }
{
    for state in states {
        if !is_body(description, depths, state) {
            return false;
        }
    }
    true
}

// ---- signals

fn all_bits(design: &Design, all: &[Asked]) -> bool
    ensures { result ≡ list_all (λ (a : Asked). given.is_unsigned design.now 1 a.signal) all.now }
{
    for asked in all {
        if !is_unsigned(design, 1, asked.signal) {
            return false;
        }
    }
    true
}

// Whether `state` holds the numbers of all states, of which there are at most 256.
fn state_fits(design: &Design, fsm: &FsmDecl) -> bool
    requires { length fsm.now.states ≤ 256 }
    ensures { result ≡ (nat_eq (length fsm.now.states) 0 || given.is_address design.now (length fsm.now.states) fsm.now.state) }
{
    let count = fsm.states.len();
    count == 0 || holds_states(design, count as u32, fsm.state)
}

// ---- the place

fn is_place(design: &Design, place: Option<FsmPlace>) -> bool
    ensures { result ≡ kept.is_place design.now place }
{
    match place {
        Some(place) => place.comb <= design.comb.len() && place.sync <= design.sync.len(),
        None => true,
    }
}

// ---- the whole

fn states_keep(description: &Description, depths: &[u8], fsm: &FsmDecl) -> bool
    requires depths { AreDepths description.now.design description.now.fsm_stmts (length description.now.fsm_stmts) depths.now }
    requires most { length fsm.now.states ≤ 256 }
    ensures { result ≡ (list_all (kept.is_body description.now) fsm.now.states && (nat_eq (length fsm.now.states) 0 || given.is_address description.now.design (length fsm.now.states) fsm.now.state)) }
{
    are_bodies(description, depths, fsm.states.as_slice()) && state_fits(&description.design, fsm)
}

fn asked_keep(design: &Design, fsm: &FsmDecl) -> bool
    ensures { result ≡ (list_all (λ (a : Asked). given.is_unsigned design.now 1 a.signal) fsm.now.asked && keeping.is_distinct (asked_names fsm.now.asked)) }
{
    all_bits(design, fsm.asked.as_slice()) && asked_distinct(fsm.asked.as_slice())
}

// Whether an FSM is such as descriptions have.
#[tactic(auto, using(crate::proofs::Bodies::too_many, crate::proofs::Bodies::not_more))]
fn is_fsm(description: &Description, depths: &[u8], fsm: &FsmDecl) -> bool
    requires { AreDepths description.now.design description.now.fsm_stmts (length description.now.fsm_stmts) depths.now }
    ensures { result ≡ kept.is_fsm description.now fsm.now }
{
    if fsm.states.len() > 256 {
        return false;
    }
    states_distinct(fsm.states.as_slice())
        && (states_keep(description, depths, fsm)
            && (asked_keep(&description.design, fsm) && is_place(&description.design, fsm.place)))
}

/// Whether all these are.
pub(crate) fn are_fsms(description: &Description, depths: &[u8], fsms: &[FsmDecl]) -> bool
    requires { AreDepths description.now.design description.now.fsm_stmts (length description.now.fsm_stmts) depths.now }
    ensures { result ≡ list_all (kept.is_fsm description.now) fsms.now }
{
    for fsm in fsms {
        if !is_fsm(description, depths, fsm) {
            return false;
        }
    }
    true
}
