//! How deep the statements of a design nest, as far as 129: targets and statements from the lowest places on.

ghost use Rattle.std.specs.Prelude.{◌≡◌, ◌+◌, ◌<◌, length, IfOk, IsTrue};
ghost use Rattle.lx_fhdl.specs.Below.{all_arms_below, all_branches_below, all_stmts_below, all_targets_below, stmt_below, target_below};
ghost use Rattle.lx_fhdl.specs.Kept as kept;
ghost use Rattle.lx_kept.specs.Depths.{AreDepths, AreTargetDepths, capped, deepest, deepest_arm, deepest_branch, deepest_target, depth_at, stmt_deep, target_deep};
ghost use Rattle.lx_kept.specs.Given.{HasArenas, TargetIsThere};

use lx_arena::Id;
use lx_fhdl::{Arm, Branch, Design, Stmt, StmtId, Target, TargetId};
use lx_text::{List, NoMemory};
use std::alloc::Global;
use std::marker::{Model, PhantomData};

// A level more.
fn deeper(depth: u8) -> u8
    ensures { result ≡ capped (1 + depth) }
{
    if depth < 129 { depth + 1 } else { 129 }
}

fn depth_at(depths: &[u8], place: usize) -> u8
    requires { place < length depths.now }
    ensures { result ≡ depth_at depths.now place }
{
    depths[place]
}

// ---- targets

// The depth of the deepest of these targets.
fn deepest_target(depths: &[u8], ids: &[TargetId]) -> u8
    requires { IsTrue (all_targets_below (length depths.now) ids.now) }
    ensures { result ≡ deepest_target depths.now ids.now }
{
    let mut deep = 0;
    for id in ids {
        deep = depth_at(depths, id.place).max(deep);
    }
    deep
}

// The depth of a target, from those of its parts.
fn target_deep(depths: &[u8], node: &Target) -> u8
    requires { IsTrue (target_below node.now (length depths.now)) }
    ensures { result ≡ target_deep depths.now node.now }
{
    match node {
        Target::Whole(_) | Target::Part { .. } => 0,
        Target::Cat(parts) => deepest_target(depths, parts.as_slice()),
        Target::Pick { items, .. } => deeper(deepest_target(depths, items.as_slice())),
    }
}

// The depths of all targets.
fn target_depths(alloc: Global, design: &Design) -> Result<List<u8>, NoMemory>
    ensures { IfOk result (λ depths. AreTargetDepths design.now (length design.now.targets) depths) }
{
    design.targets.lower();
    let mut depths = List::new(alloc);
    for place in 0..design.targets.len() {
        let id = Id {
            place,
            of: PhantomData,
        };
        let depth = target_deep(depths.as_slice(), design.targets.get(id));
        depths.push(depth)?;
    }
    Ok(depths)
}

// ---- statements

// The depth of the deepest of these statements.
fn deepest(depths: &[u8], ids: &[StmtId]) -> u8
    requires { IsTrue (all_stmts_below (length depths.now) ids.now) }
    ensures { result ≡ deepest depths.now ids.now }
{
    let mut deep = 0;
    for id in ids {
        deep = depth_at(depths, id.place).max(deep);
    }
    deep
}

fn deepest_branch(depths: &[u8], branches: &[Branch]) -> u8
    requires { IsTrue (all_branches_below (length depths.now) branches.now) }
    ensures { result ≡ deepest_branch depths.now branches.now }
{
    let mut deep = 0;
    for branch in branches {
        deep = deepest(depths, branch.body.as_slice()).max(deep);
    }
    deep
}

fn deepest_arm(depths: &[u8], arms: &[Arm]) -> u8
    requires { IsTrue (all_arms_below (length depths.now) arms.now) }
    ensures { result ≡ deepest_arm depths.now arms.now }
{
    let mut deep = 0;
    for arm in arms {
        deep = deepest(depths, arm.body.as_slice()).max(deep);
    }
    deep
}

// The depth of a statement, from those of its target and of the statements inside.
fn stmt_deep(targets: &[u8], stmts: &[u8], node: &Stmt) -> u8
    requires target { TargetIsThere (length targets.now) node.now }
    requires stmts { IsTrue (stmt_below node.now (length stmts.now)) }
    ensures { result ≡ stmt_deep targets.now stmts.now node.now }
{
    match node {
        Stmt::Assign { target, .. } => deeper(depth_at(targets, target.place)),
        Stmt::If { branches, rest, .. } => deeper(deepest_branch(stmts, branches.as_slice()).max(
            deepest(stmts, rest.as_slice()),
        )),
        Stmt::Case { arms, rest, .. } => {
            deeper(deepest_arm(stmts, arms.as_slice()).max(deepest(stmts, rest.as_slice())))
        }
    }
}

// The depths of all statements.
fn stmt_depths(alloc: Global, design: &Design, targets: &[u8]) -> Result<List<u8>, NoMemory>
    requires arenas { HasArenas design.now }
    requires targets { AreTargetDepths design.now (length design.now.targets) targets.now }
    ensures { IfOk result (λ depths. AreDepths design.now (length design.now.stmts) depths) }
{
    let mut depths = List::new(alloc);
    for place in 0..design.stmts.len() {
        let id = Id {
            place,
            of: PhantomData,
        };
        let depth = stmt_deep(targets, depths.as_slice(), design.stmts.get(id));
        depths.push(depth)?;
    }
    Ok(depths)
}

/// A design, and how deep each of its statements nests. A contract sees the design.
#[derive(Drop)]
pub struct Depths<'a> {
    design: &'a Design,
    of_stmts: List<u8>,
}

impl<'a> Model for Depths<'a> {
    ghost use Rattle.std.specs.Prelude.{length};
    ghost use Rattle.lx_fhdl.specs.declared.design.Design.{Design};

    ghost Value = { Design };

    ghost use Rattle.lx_kept.specs.Depths.{AreDepths};

    ghost view = { λ a. a.design.now };

    ghost invariant = { λ a. AreDepths a.design.now (length a.design.now.stmts) a.of_stmts };
}

impl<'a> Depths<'a> {
    /// The depths of the statements of a design whose arenas keep what arenas keep.
    pub fn new(alloc: Global, design: &'a Design) -> Result<Depths<'a>, NoMemory>
        requires { HasArenas design.now }
        ensures { IfOk result (λ depths. depths ≡ design.now) }
    {
        let of_targets = target_depths(alloc, design)?;
        let of_stmts = stmt_depths(alloc, design, of_targets.as_slice())?;
        Ok(Depths { design, of_stmts })
    }

    /// Whether these statements are there, and at most 128 deep.
    pub fn list_stands(&self, ids: &[StmtId]) -> bool
        ensures { result ≡ kept.list_stands self.now ids.now }
    {
        let design = self.design;
        if !stmts_there(design.stmts.len(), ids) {
            return false;
        }
        deepest(self.of_stmts.as_slice(), ids) <= 128
    }
}

// Whether these are places below so many.
fn stmts_there(count: usize, ids: &[StmtId]) -> bool
    ensures { result ≡ all_stmts_below count ids.now }
{
    for id in ids {
        if id.place >= count {
            return false;
        }
    }
    true
}
