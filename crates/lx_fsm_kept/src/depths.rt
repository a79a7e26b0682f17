//! How deep the statements of FSMs nest, as far as 65: targets and statements from the lowest places on.

ghost use Rattle.std.specs.Prelude.{◌≡◌, ◌+◌, ◌<◌, length, IfOk, IsTrue};
ghost use Rattle.lx_fhdl.specs.Below.{all_targets_below, target_below};
ghost use Rattle.lx_description.specs.Below.{all_fsm_arms_below, all_fsm_below, all_fsm_branches_below, fsm_below};
ghost use Rattle.lx_description.specs.Keeping.{FsmStmtStands};
ghost use Rattle.lx_fhdl.specs.Keeping.{EachOf};
ghost use Rattle.lx_fsm_kept.specs.Depths.{AreDepths, AreTargetDepths, TargetIsThere, capped, deepest, deepest_arm, deepest_branch, deepest_target, depth_at, stmt_deep, target_deep};

use lx_arena::Id;
use lx_description::{FsmArm, FsmBranch, FsmStmt, FsmStmtId, FsmStmts};
use lx_fhdl::{Design, Target, TargetId};
use lx_text::{List, NoMemory};
use std::alloc::Global;
use std::marker::PhantomData;

// A level more.
fn deeper(depth: u8) -> u8
    ensures { result ≡ capped (1 + depth) }
{
    if depth < 65 { depth + 1 } else { 65 }
}

fn depth_at(depths: &[u8], place: usize) -> u8
    requires { place < length depths.now }
    ensures { result ≡ depth_at depths.now place }
{
    depths[place]
}

// ---- targets

// The depth of the deepest of these targets.
fn deepest_target(depths: &[u8], ids: &[TargetId]) -> u8
    requires { IsTrue (all_targets_below (length depths.now) ids.now) }
    ensures { result ≡ deepest_target depths.now ids.now }
{
    let mut deep = 0;
    for id in ids {
        deep = depth_at(depths, id.place).max(deep);
    }
    deep
}

// The depth of a target, from those of its parts.
fn target_deep(depths: &[u8], node: &Target) -> u8
    requires { IsTrue (target_below node.now (length depths.now)) }
    ensures { result ≡ target_deep depths.now node.now }
{
    match node {
        Target::Whole(_) | Target::Part { .. } => 0,
        Target::Cat(parts) => deepest_target(depths, parts.as_slice()),
        Target::Pick { items, .. } => deeper(deepest_target(depths, items.as_slice())),
    }
}

/// The depths of all targets.
pub(crate) fn target_depths(alloc: Global, design: &Design) -> Result<List<u8>, NoMemory>
    ensures { IfOk result (λ depths. AreTargetDepths design.now (length design.now.targets) depths) }
{
    design.targets.lower();
    let mut depths = List::new(alloc);
    for place in 0..design.targets.len() {
        let id = Id {
            place,
            of: PhantomData,
        };
        let depth = target_deep(depths.as_slice(), design.targets.get(id));
        depths.push(depth)?;
    }
    Ok(depths)
}

// ---- statements

/// The depth of the deepest of these statements.
pub(crate) fn deepest(depths: &[u8], ids: &[FsmStmtId]) -> u8
    requires { IsTrue (all_fsm_below (length depths.now) ids.now) }
    ensures { result ≡ deepest depths.now ids.now }
{
    let mut deep = 0;
    for id in ids {
        deep = depth_at(depths, id.place).max(deep);
    }
    deep
}

fn deepest_branch(depths: &[u8], branches: &[FsmBranch]) -> u8
    requires { IsTrue (all_fsm_branches_below (length depths.now) branches.now) }
    ensures { result ≡ deepest_branch depths.now branches.now }
{
    let mut deep = 0;
    for branch in branches {
        deep = deepest(depths, branch.body.as_slice()).max(deep);
    }
    deep
}

fn deepest_arm(depths: &[u8], arms: &[FsmArm]) -> u8
    requires { IsTrue (all_fsm_arms_below (length depths.now) arms.now) }
    ensures { result ≡ deepest_arm depths.now arms.now }
{
    let mut deep = 0;
    for arm in arms {
        deep = deepest(depths, arm.body.as_slice()).max(deep);
    }
    deep
}

// The depth of a statement, from those of its target and of the statements inside.
fn stmt_deep(targets: &[u8], stmts: &[u8], node: &FsmStmt) -> u8
    requires target { TargetIsThere (length targets.now) node.now }
    requires stmts { IsTrue (fsm_below node.now (length stmts.now)) }
    ensures { result ≡ stmt_deep targets.now stmts.now node.now }
{
    match node {
        FsmStmt::Assign { target, .. } | FsmStmt::NextValue { target, .. } => {
            deeper(depth_at(targets, target.place))
        }
        FsmStmt::NextState { .. } => 1,
        FsmStmt::If { branches, rest, .. } => deeper(deepest_branch(stmts, branches.as_slice()).max(
            deepest(stmts, rest.as_slice()),
        )),
        FsmStmt::Case { arms, rest, .. } => {
            deeper(deepest_arm(stmts, arms.as_slice()).max(deepest(stmts, rest.as_slice())))
        }
    }
}

/// The depths of all statements of FSMs.
pub(crate) fn stmt_depths(
    alloc: Global,
    design: &Design,
    stmts: &FsmStmts,
    targets: &[u8],
) -> Result<List<u8>, NoMemory>
    requires stand { EachOf (FsmStmtStands (length design.now.exprs) (length design.now.targets)) stmts.now }
    requires targets { AreTargetDepths design.now (length design.now.targets) targets.now }
    ensures { IfOk result (λ depths. AreDepths design.now stmts.now (length stmts.now) depths) }
{
    stmts.lower();
    let mut depths = List::new(alloc);
    for place in 0..stmts.len() {
        let id = Id {
            place,
            of: PhantomData,
        };
        let depth = stmt_deep(targets, depths.as_slice(), stmts.get(id));
        depths.push(depth)?;
    }
    Ok(depths)
}
