//! The faults of an FSM: it has no states, or a name that no state has.

ghost use Rattle.std.specs.Prelude.{◌≡◌, ◌++◌, ◌<◌, ◌≤◌, length, IfSome, IsTrue};
ghost use Rattle.lx_alloc.specs.Judged.{Judged};
ghost use Rattle.lx_description.specs.Below.{all_fsm_arms_below, all_fsm_below, all_fsm_branches_below};
ghost use Rattle.lx_fhdl.specs.declared.design.Design.{Design};
ghost use Rattle.lx_fsm.specs.Actions.{named};
ghost use Rattle.lx_fsm.specs.Decls.{act, asked_names, fsm_of, names_of};
ghost use Rattle.lx_fsm.specs.Lowers.{HasBodies, unknown_in, unknown_in_acts, unknown_in_arms, unknown_in_branches, unknown_in_states, unknown_later};
ghost use Rattle.lx_fsm.specs.Machine.{faults, number_among, number_from, stated, unknown};

use lx_description::{FsmArm, FsmBranch, FsmDecl, FsmStmt, FsmStmtId, FsmStmts, StateDecl};
use lx_text::{Fault, Kind, Refusal, Word};
use std::alloc::Global;

// The number of the first state of a name.
fn number_of(states: &[StateDecl], name: &[u8]) -> Option<usize>
    ensures is { result ≡ number_from 0 (names_of states.now) name.now }
    ensures below { IfSome result (λ k. k < length states.now) }
{
    for (number, state) in states.iter().enumerate() {
        if state.name.is(name) {
            return Some(number);
        }
    }
    None
}

// The number of a state that there is.
pub(crate) fn number_among(states: &[StateDecl], name: &[u8]) -> usize
    ensures is { result ≡ number_among (names_of states.now) name.now }
    ensures below { 0 < length states.now → result < length states.now }
{
    number_of(states, name).unwrap_or(0)
}

fn refusal(line: u32, kind: Kind) -> Refusal
    ensures { result ≡ Refusal.Fault (record { line = line; kind = kind }) }
{
    Refusal::Fault(Fault { line, kind })
}

// Some state has the name.
fn check_name(alloc: Global, fsm: &FsmDecl, name: &Word) -> Result<(), Refusal>
    ensures { Judged (unknown (names_of fsm.now.states) fsm.now.line name.now) result }
{
    match number_of(fsm.states.as_slice(), name.as_bytes()) {
        Some(_) => Ok(()),
        None => {
            let name = name.copied(alloc)?;
            Err(refusal(fsm.line, Kind::UnknownState(name)))
        }
    }
}

// Some state has each name that a statement's NextStates go to.
#[cycle(check)]
fn check_act(alloc: Global, fsm: &FsmDecl, stmts: &FsmStmts, id: FsmStmtId) -> Result<(), Refusal>
    requires { id.place < length stmts.now }
    ensures { (d : Design) → Judged (unknown_in fsm.now (named (act d stmts.now id.place))) result }
{
    match stmts.get(id) {
        FsmStmt::Assign { .. } => Ok(()),
        FsmStmt::NextValue { .. } => Ok(()),
        FsmStmt::NextState { name, .. } => check_name(alloc, fsm, name),
        FsmStmt::If { branches, rest, .. } => {
            let branches = branches.as_slice();
            let rest = rest.as_slice();
            check_if(alloc, fsm, stmts, branches, rest, id.place)
        }
        FsmStmt::Case { arms, rest, .. } => {
            let arms = arms.as_slice();
            let rest = rest.as_slice();
            check_case(alloc, fsm, stmts, arms, rest, id.place)
        }
    }
}

// The statements that stand in one are each lower than `bound`.
#[cycle(check)]
fn check_if(
    alloc: Global,
    fsm: &FsmDecl,
    stmts: &FsmStmts,
    branches: &[FsmBranch],
    rest: &[FsmStmtId],
    bound: usize,
) -> Result<(), Refusal>
    requires within { bound ≤ length stmts.now }
    requires branches { IsTrue (all_fsm_branches_below bound branches.now) }
    requires rest { IsTrue (all_fsm_below bound rest.now) }
    ensures { (d : Design) → Judged (unknown_in_branches d fsm.now stmts.now branches.now ++ unknown_in_acts d fsm.now stmts.now rest.now) result }
{
    check_branches(alloc, fsm, stmts, branches, bound)?;
    check_acts(alloc, fsm, stmts, rest, bound)
}

#[cycle(check)]
fn check_case(
    alloc: Global,
    fsm: &FsmDecl,
    stmts: &FsmStmts,
    arms: &[FsmArm],
    rest: &[FsmStmtId],
    bound: usize,
) -> Result<(), Refusal>
    requires within { bound ≤ length stmts.now }
    requires arms { IsTrue (all_fsm_arms_below bound arms.now) }
    requires rest { IsTrue (all_fsm_below bound rest.now) }
    ensures { (d : Design) → Judged (unknown_in_arms d fsm.now stmts.now arms.now ++ unknown_in_acts d fsm.now stmts.now rest.now) result }
{
    check_arms(alloc, fsm, stmts, arms, bound)?;
    check_acts(alloc, fsm, stmts, rest, bound)
}

#[cycle(check)]
fn check_acts(
    alloc: Global,
    fsm: &FsmDecl,
    stmts: &FsmStmts,
    ids: &[FsmStmtId],
    bound: usize,
) -> Result<(), Refusal>
    requires within { bound ≤ length stmts.now }
    requires below { IsTrue (all_fsm_below bound ids.now) }
    ensures { (d : Design) → Judged (unknown_in_acts d fsm.now stmts.now ids.now) result }
{
    for id in ids {
        check_act(alloc, fsm, stmts, *id)?;
    }
    Ok(())
}

#[cycle(check)]
fn check_branches(
    alloc: Global,
    fsm: &FsmDecl,
    stmts: &FsmStmts,
    branches: &[FsmBranch],
    bound: usize,
) -> Result<(), Refusal>
    requires within { bound ≤ length stmts.now }
    requires below { IsTrue (all_fsm_branches_below bound branches.now) }
    ensures { (d : Design) → Judged (unknown_in_branches d fsm.now stmts.now branches.now) result }
{
    for branch in branches {
        let body = branch.body.as_slice();
        check_acts(alloc, fsm, stmts, body, bound)?;
    }
    Ok(())
}

#[cycle(check)]
fn check_arms(
    alloc: Global,
    fsm: &FsmDecl,
    stmts: &FsmStmts,
    arms: &[FsmArm],
    bound: usize,
) -> Result<(), Refusal>
    requires within { bound ≤ length stmts.now }
    requires below { IsTrue (all_fsm_arms_below bound arms.now) }
    ensures { (d : Design) → Judged (unknown_in_arms d fsm.now stmts.now arms.now) result }
{
    for arm in arms {
        let body = arm.body.as_slice();
        check_acts(alloc, fsm, stmts, body, bound)?;
    }
    Ok(())
}

// Some state has the name of the reset state.
fn check_start(alloc: Global, fsm: &FsmDecl) -> Result<(), Refusal>
    ensures { Judged (unknown_in fsm.now (stated fsm.now.start)) result }
{
    match &fsm.start {
        Some(name) => check_name(alloc, fsm, name),
        None => Ok(()),
    }
}

fn check_states(alloc: Global, fsm: &FsmDecl, stmts: &FsmStmts) -> Result<(), Refusal>
    requires { HasBodies (length stmts.now) fsm.now.states }
    ensures { (d : Design) → Judged (unknown_in_states d fsm.now stmts.now fsm.now.states) result }
{
    let bound = stmts.len();
    let states = fsm.states.as_slice();
    for state in states {
        let body = state.body.as_slice();
        check_acts(alloc, fsm, stmts, body, bound)?;
    }
    Ok(())
}

fn check_asked(alloc: Global, fsm: &FsmDecl) -> Result<(), Refusal>
    ensures { Judged (unknown_in fsm.now (asked_names fsm.now.asked)) result }
{
    let all = fsm.asked.as_slice();
    for asked in all {
        check_name(alloc, fsm, &asked.name)?;
    }
    Ok(())
}

// Some state has each name but that of the reset state.
fn check_later(alloc: Global, fsm: &FsmDecl, stmts: &FsmStmts) -> Result<(), Refusal>
    requires { HasBodies (length stmts.now) fsm.now.states }
    ensures { (d : Design) → Judged (unknown_later d fsm.now stmts.now) result }
{
    check_states(alloc, fsm, stmts)?;
    check_asked(alloc, fsm)
}

// Some state has each name.
fn check_names(alloc: Global, fsm: &FsmDecl, stmts: &FsmStmts) -> Result<(), Refusal>
    requires { HasBodies (length stmts.now) fsm.now.states }
    ensures { (d : Design) → Judged (unknown_in fsm.now (stated fsm.now.start) ++ unknown_later d fsm.now stmts.now) result }
{
    check_start(alloc, fsm)?;
    check_later(alloc, fsm, stmts)
}

/// Finds the first fault of an FSM (`genlib.fsm`), on the line of its call: `NoStates` where it has no states, else
/// `UnknownState` with the first name that no state has, of the reset state, of the `NextState`s state by state, and of
/// `ongoing`.
pub fn check_fsm(alloc: Global, fsm: &FsmDecl, stmts: &FsmStmts) -> Result<(), Refusal>
    requires { HasBodies (length stmts.now) fsm.now.states }
    ensures { (d : Design) → Judged (faults (fsm_of d stmts.now fsm.now) fsm.now.line) result }
{
    if fsm.states.is_empty() {
        return Err(refusal(fsm.line, Kind::NoStates));
    }
    check_names(alloc, fsm, stmts)
}
