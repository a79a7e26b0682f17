//! The test.

ghost use Rattle.std.specs.Prelude.{◌≡◌, nat_lt, true, IfOk};
ghost use Rattle.std.specs.List.{list_all, list_any};
ghost use Rattle.lx_description.specs.Keeping.{have_clock, is_sys};
ghost use Rattle.lx_description.specs.Kept.{fsm_stmt_stands};
ghost use Rattle.lx_description.specs.declared.fsms.FsmBranch.{FsmBranch};
ghost use Rattle.lx_fsm_kept.specs.Stand.{FsmsStand, fsms_stand};

use crate::depths::{stmt_depths, target_depths};
use crate::fsms::are_fsms;
use crate::resets::resets_left;
use lx_description::{Description, FsmBranch, FsmStmt};
use lx_fhdl::Domain;
use lx_text::NoMemory;
use std::alloc::Global;

fn branches_stand(branches: &[FsmBranch], exprs: usize) -> bool
    ensures { result ≡ list_all (λ (b : FsmBranch). nat_lt b.cond.place exprs) branches.now }
{
    for branch in branches {
        if branch.cond.place >= exprs {
            return false;
        }
    }
    true
}

// Whether what a statement names is there, of so many.
fn stmt_stands(node: &FsmStmt, exprs: usize, targets: usize) -> bool
    ensures { result ≡ fsm_stmt_stands exprs targets node.now }
{
    match node {
        FsmStmt::Assign { target, value, .. } => target.place < targets && value.place < exprs,
        FsmStmt::If { branches, .. } => branches_stand(branches.as_slice(), exprs),
        FsmStmt::Case { on, .. } => on.place < exprs,
        FsmStmt::NextState { .. } => true,
        FsmStmt::NextValue { target, value, .. } => target.place < targets && value.place < exprs,
    }
}

fn stmts_stand(nodes: &[FsmStmt], exprs: usize, targets: usize) -> bool
    ensures { result ≡ list_all (fsm_stmt_stands exprs targets) nodes.now }
{
    for node in nodes {
        if !stmt_stands(node, exprs, targets) {
            return false;
        }
    }
    true
}

fn has_sys(domains: &[Domain]) -> bool
    ensures { result ≡ list_any is_sys domains.now }
{
    for domain in domains {
        if domain.name.is(b"sys") {
            return true;
        }
    }
    false
}

fn have_clock(description: &Description) -> bool
    ensures { result ≡ have_clock description.now }
{
    description.fsms.len() == 0 || has_sys(description.design.domains.as_slice())
}

#[tactic(auto, using(crate::proofs::Sound::none_stand, crate::proofs::Sound::others_stand))]
fn tested(alloc: Global, description: &Description) -> Result<bool, NoMemory>
    ensures { IfOk result (λ stand. stand ≡ fsms_stand description.now) }
{
    let design = &description.design;
    let stmts = &description.fsm_stmts;
    if !stmts_stand(stmts.as_slice(), design.exprs.len(), design.targets.len()) {
        return Ok(false);
    }
    let targets = target_depths(alloc, design)?;
    let depths = stmt_depths(alloc, design, stmts, targets.as_slice())?;
    Ok(
        are_fsms(description, depths.as_slice(), description.fsms.as_slice())
            && (have_clock(description) && resets_left(description)),
    )
}

/// Whether the FSMs of a description are such as descriptions have, and leave the resets of clock domains alone; in time that
/// is linear in the description, but for the names of an FSM, which are compared with one another.
#[tactic(auto, using(crate::proofs::Sound::stands))]
pub fn fsms_stand(alloc: Global, description: &Description) -> Result<bool, NoMemory>
    ensures is { IfOk result (λ stand. stand ≡ fsms_stand description.now) }
    ensures law { IfOk result (λ stand. stand ≡ true → FsmsStand description.now) }
{
    description.design.targets.lower();
    description.fsm_stmts.lower();
    let stand = tested(alloc, description)?;
    Ok(stand)
}
