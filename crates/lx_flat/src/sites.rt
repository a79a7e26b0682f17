//! Targets and statements of a design that is lowered: each is known to stand there, and those inside a node to be lower.

ghost use Rattle.std.specs.Prelude.{◌<◌, ◌≤◌, length};
ghost use Rattle.lx_circuit.specs.Statements.{sum_bits};
ghost use Rattle.lx_fhdl.specs.Designs as designs;
ghost use Rattle.lx_fhdl.specs.Stmts.{targets_at};
ghost use Rattle.lx_flat.specs.Keys.{AreFresh};
ghost use Rattle.lx_flat.specs.Ready.{LowerArms, LowerBranches, LowerStmts, LowerTargets};
ghost use Rattle.lx_plain.specs.Lines.{expr_shape};

use lx_fhdl::{Arm, Branch, ExprId, StmtId, TargetId};
use lx_plain::source::Source;

/// A target of the design.
#[derive(Clone, Copy)]
pub(crate) struct TargetIn<'a> {
    pub source: &'a Source<'a>,
    pub id: TargetId,
    pub ghost there: { id.place < length source.now.design.targets },
}

/// Targets of the design, each lower than a bound.
#[derive(Clone, Copy)]
pub(crate) struct TargetsIn<'a> {
    pub source: &'a Source<'a>,
    pub ids: &'a [TargetId],
    pub bound: usize,
    pub ghost lower: { LowerTargets source.now.design bound ids.now },
}

/// Parts side by side that have at most 127 bits together, each lower than a bound.
#[derive(Clone, Copy)]
pub(crate) struct PartsIn<'a> {
    pub source: &'a Source<'a>,
    pub ids: &'a [TargetId],
    pub bound: usize,
    pub ghost lower: { LowerTargets source.now.design bound ids.now },
    pub ghost most: { sum_bits (designs.shapes source.now.design) (targets_at (designs.target source.now.design) ids.now) ≤ 127 },
}

/// The items of an Array, and its index.
#[derive(Clone, Copy)]
pub(crate) struct ItemsIn<'a> {
    pub source: &'a Source<'a>,
    pub ids: &'a [TargetId],
    pub index: ExprId,
    pub bound: usize,
    pub ghost lower: { LowerTargets source.now.design bound ids.now },
    pub ghost there: { index.place < length source.now.design.exprs },
}

/// A statement of the design.
#[derive(Clone, Copy)]
pub(crate) struct StmtIn<'a> {
    pub source: &'a Source<'a>,
    pub id: StmtId,
    pub ghost there: { id.place < length source.now.design.stmts },
}

/// Statements of the design, each lower than a bound.
#[derive(Clone, Copy)]
pub struct StmtsIn<'a> {
    pub source: &'a Source<'a>,
    pub ids: &'a [StmtId],
    pub bound: usize,
    pub ghost lower: { LowerStmts source.now.design bound ids.now },
}

/// Branches of an `If` and its rest, from a line.
#[derive(Clone, Copy)]
pub(crate) struct BranchesIn<'a> {
    pub source: &'a Source<'a>,
    pub branches: &'a [Branch],
    pub rest: &'a [StmtId],
    pub bound: usize,
    pub line: u32,
    pub ghost lower: { LowerBranches source.now.design bound branches.now },
    pub ghost rest_lower: { LowerStmts source.now.design bound rest.now },
}

/// A lone branch of an `If` and its rest, from a line.
#[derive(Clone, Copy)]
pub(crate) struct LoneIn<'a> {
    pub source: &'a Source<'a>,
    pub branch: &'a Branch,
    pub rest: &'a [StmtId],
    pub bound: usize,
    pub line: u32,
    pub ghost there: { branch.now.cond.place < length source.now.design.exprs },
    pub ghost lower: { LowerStmts source.now.design bound branch.now.body },
    pub ghost rest_lower: { LowerStmts source.now.design bound rest.now },
}

/// A `Case`: the expression that chooses, the arms and the rest, from a line.
#[derive(Clone, Copy)]
pub(crate) struct CaseIn<'a> {
    pub source: &'a Source<'a>,
    pub on: ExprId,
    pub arms: &'a [Arm],
    pub rest: &'a [StmtId],
    pub bound: usize,
    pub line: u32,
    pub ghost there: { on.place < length source.now.design.exprs },
    pub ghost lower: { LowerArms source.now.design bound arms.now },
    pub ghost rest_lower: { LowerStmts source.now.design bound rest.now },
}

/// A `Case` with what is known of its keys: for each arm, whether its key is a value of the expression that chooses and
/// stands in no arm before.
#[derive(Clone, Copy)]
pub(crate) struct ArmsIn<'a> {
    pub source: &'a Source<'a>,
    pub on: ExprId,
    pub arms: &'a [Arm],
    pub fresh: &'a [bool],
    pub rest: &'a [StmtId],
    pub bound: usize,
    pub line: u32,
    pub ghost there: { on.place < length source.now.design.exprs },
    pub ghost are: { AreFresh (expr_shape source.now.design on.place) arms.now (length arms.now) fresh.now },
    pub ghost lower: { LowerArms source.now.design bound arms.now },
    pub ghost rest_lower: { LowerStmts source.now.design bound rest.now },
}
