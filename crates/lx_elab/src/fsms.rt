//! The FSMs of a description: their statements are there, and each name that they go by is that of a state.

ghost use Rattle.std.specs.Prelude.{◌≡◌, length, true};
ghost use Rattle.std.specs.List.{list_all};
ghost use Rattle.lx_alloc.specs.Judged.{Judged};
ghost use Rattle.lx_description.specs.Below.{all_fsm_below};
ghost use Rattle.lx_description.specs.declared.fsms.StateDecl.{StateDecl};
ghost use Rattle.lx_elab.specs.Fsms.{bodies_there, fsm_faults, has_bodies};

use lx_description::{Description, FsmDecl, FsmStmtId, StateDecl};
use lx_fsm::check_fsm;
use lx_text::Refusal;
use std::alloc::Global;

fn all_below(ids: &[FsmStmtId], count: usize) -> bool
    ensures { result ≡ all_fsm_below count ids.now }
{
    for id in ids {
        if id.place >= count {
            return false;
        }
    }
    true
}

fn states_there(states: &[StateDecl], count: usize) -> bool
    ensures { result ≡ list_all (λ (s : StateDecl). all_fsm_below count s.body) states.now }
{
    for state in states {
        if !all_below(state.body.as_slice(), count) {
            return false;
        }
    }
    true
}

fn fsms_there(fsms: &[FsmDecl], count: usize) -> bool
    ensures { result ≡ list_all (has_bodies count) fsms.now }
{
    for fsm in fsms {
        if !states_there(fsm.states.as_slice(), count) {
            return false;
        }
    }
    true
}

/// Whether the statements of all states are there.
pub fn bodies_there(description: &Description) -> bool
    ensures { result ≡ bodies_there description.now }
{
    fsms_there(description.fsms.as_slice(), description.fsm_stmts.len())
}

/// Finds the first fault of the FSMs, in order of creation.
pub fn check_fsms(alloc: Global, description: &Description) -> Result<(), Refusal>
    requires { bodies_there description.now ≡ true }
    ensures { Judged (fsm_faults description.now) result }
{
    let all = description.fsms.as_slice();
    for fsm in all {
        check_fsm(alloc, fsm, &description.fsm_stmts)?;
    }
    Ok(())
}
