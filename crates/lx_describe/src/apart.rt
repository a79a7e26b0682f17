//! The signals whose bits are known once all is made, the `state` of an FSM and the `enable` of an event manager: no
//! expression and no target names one. No expression reads a memory by itself either: ports alone do.

ghost use Rattle.std.specs.Prelude.{◌≡◌, true, option_copied, slice_get, OnOk};
ghost use Rattle.std.specs.List.{list_all};
ghost use Rattle.lx_describe.specs.Apart.{all_apart, bits_from, expr_passes, fsm_bits, is_late, late_apart, late_bits, manager_bits, owner_fsm, state_bits, target_passes};
ghost use Rattle.lx_state.specs.Step.{Gives};

use lx_fhdl::{Expr, SigId, Target};
use lx_paths::paths::{object_fsm, owner_manager};
use lx_state::machine::{Fsm, Machine, ManagerState, Owner};
use lx_state::work::fault;
use lx_text::{Kind, Refusal};

/// The fewest bits, at least 1, that hold the numbers of so many states.
#[tactic(auto, unfolding(crate::specs::Apart::bits_from))]
pub fn state_bits(states: usize) -> u8
    ensures { result ≡ state_bits states }
{
    let mut bits: u8 = 1;
    let mut more: u8 = 8;
    while more > 0 {
        if states <= 1usize << bits {
            return bits;
        }
        bits += 1;
        more -= 1;
    }
    bits
}

// The FSM whose own signal one of this owner is.
fn owner_fsm<'a>(machine: &'a Machine, owner: &Owner) -> Option<&'a Fsm>
    ensures { option_copied result ≡ owner_fsm machine.now (Some owner.now) }
{
    match owner.part {
        Some(_) => None,
        None => object_fsm(machine, owner.object),
    }
}

fn fsm_bits(fsm: Option<&Fsm>) -> Option<u8>
    ensures { result ≡ fsm_bits (option_copied fsm.entry) }
{
    match fsm {
        Some(fsm) => Some(state_bits(fsm.names.len())),
        None => None,
    }
}

// One bit for each source, at most 32.
fn manager_bits(manager: Option<&ManagerState>) -> Option<u8>
    ensures { result ≡ manager_bits (option_copied manager.entry) }
{
    match manager {
        Some(manager) => Some(manager.sources.len().min(32) as u8),
        None => None,
    }
}

fn bits_of(machine: &Machine, owner: &Owner) -> Option<u8>
    ensures { result ≡ late_bits machine.now (Some owner.now) }
{
    match fsm_bits(owner_fsm(machine, owner)) {
        Some(bits) => Some(bits),
        None => manager_bits(owner_manager(machine, owner)),
    }
}

/// The bits of the signal at a place, where they are known once all is made.
pub fn late_bits(machine: &Machine, signal: usize) -> Option<u8>
    ensures { result ≡ late_bits machine.now (slice_get machine.now.owners signal) }
{
    match machine.owners.get(signal) {
        Some(owner) => bits_of(machine, owner),
        None => None,
    }
}

fn is_late(machine: &Machine, signal: SigId) -> bool
    ensures { result ≡ is_late machine.now signal.0 }
{
    late_bits(machine, signal.0).is_some()
}

fn expr_passes(machine: &Machine, node: &Expr) -> bool
    ensures { result ≡ expr_passes machine.now node.now }
{
    match node {
        Expr::Sig(signal) => !is_late(machine, *signal),
        Expr::Fetch { .. } => false,
        _ => true,
    }
}

fn exprs_pass(machine: &Machine) -> bool
    ensures { result ≡ list_all (expr_passes machine.now) machine.now.shaped.exprs }
{
    for node in machine.shaped.design().exprs.as_slice() {
        if !expr_passes(machine, node) {
            return false;
        }
    }
    true
}

fn target_passes(machine: &Machine, node: &Target) -> bool
    ensures { result ≡ target_passes machine.now node.now }
{
    match node {
        Target::Whole(signal) => !is_late(machine, *signal),
        Target::Part { signal, .. } => !is_late(machine, *signal),
        Target::Cat(_) | Target::Pick { .. } => true,
    }
}

fn targets_pass(machine: &Machine) -> bool
    ensures { result ≡ list_all (target_passes machine.now) machine.now.shaped.targets }
{
    for node in machine.shaped.design().targets.as_slice() {
        if !target_passes(machine, node) {
            return false;
        }
    }
    true
}

/// No expression and no target names the `state` of an FSM or the `enable` of an event manager, and no expression reads a memory; another machine is not
/// built, and none is known.
#[tactic(auto, unfolding(crate::specs::Apart::late_apart))]
pub fn late_apart(machine: &Machine) -> Result<(), Refusal>
    ensures is { Gives result machine.now (late_apart machine.now) }
    ensures apart { OnOk result (all_apart machine.now ≡ true) }
{
    if exprs_pass(machine) && targets_pass(machine) {
        Ok(())
    } else {
        Err(fault(0, Kind::NotYetBuilt))
    }
}
