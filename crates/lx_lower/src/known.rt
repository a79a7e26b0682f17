//! A draft whose expressions are known: which of them are free, and what value each free one has.

ghost use Rattle.std.specs.Prelude.{◌≡◌, ℕ, ◌<◌, true, length, IfOk, IsTrue};
ghost use Rattle.lx_circuit.specs.Values.{value_of};
ghost use Rattle.lx_fhdl.specs.Below.{stmt_below};
ghost use Rattle.lx_fhdl.specs.Designs.{block, shapes, stmt, target, term};
ghost use Rattle.lx_fhdl.specs.Keeping.{StmtStands, TargetStands};
ghost use Rattle.lx_fhdl.specs.Lowered.{are_for, is_for, is_plain_target};
ghost use Rattle.lx_fhdl.specs.Stmts.{node_stmt, node_target};
ghost use Rattle.lx_flat.specs.Ready.{LowerBranches, LowerStmts};
ghost use Rattle.lx_lowering.specs.Constants.{names_none, zeros};
ghost use Rattle.lx_lower.specs.Fixed.{AreForFree, IsFixed, IsForFree, IsNarrow, reset_of};
ghost use Rattle.lx_plain.specs.Lines.{lines_at};
ghost use Rattle.lx_plain.specs.Owned.{node_lines_of};

use crate::fixed::{Fixed, fixed_exprs};
use lx_fhdl::{Branch, Draft, ExprId, SigId, Signal, Stmt, StmtId, Target, TargetId};
use lx_text::NoMemory;
use std::alloc::Global;
use std::marker::Model;

/// A draft, and what is known of each of its expressions.
#[derive(Drop)]
pub struct Known<'a> {
    draft: &'a Draft,
    fixed: Fixed,
}

impl<'a> Model for Known<'a> {
    ghost use Rattle.lx_fhdl.specs.declared.design.Design.{Design};

    ghost Value = { Design };

    ghost use Rattle.lx_lower.specs.Fixed.{IsFixed};

    ghost view = { λ k. k.draft.now };

    ghost invariant = { λ k. IsFixed k.draft.now k.fixed };
}

impl<'a> Known<'a> {
    /// What is known of the expressions of a draft.
    pub fn new(alloc: Global, draft: &'a Draft) -> Result<Known<'a>, NoMemory>
        ensures { IfOk result (λ known. known ≡ draft.now) }
    {
        let fixed = fixed_exprs(alloc, draft.design())?;
        Ok(Known { draft, fixed })
    }

    /// The number of statements.
    pub fn stmts(&self) -> usize
        ensures { result ≡ length self.now.stmts }
    {
        let draft = self.draft;
        draft.design().stmts.len()
    }
}

/// An expression of a known draft.
#[derive(Clone, Copy)]
pub(crate) struct ExprOf<'a> {
    pub known: &'a Known<'a>,
    pub id: ExprId,
    pub ghost there: { id.place < length known.now.exprs },
}

impl<'a> ExprOf<'a> {
    /// Whether it names neither a signal nor a word of a memory.
    pub fn is_free(self) -> bool
        ensures { result ≡ names_none (term self.entry.known.now self.entry.id.place) }
    {
        let known = self.known;
        let _draft = known.draft;
        *known.fixed.free.at(self.id.place)
    }
}

/// A free expression of a known draft.
#[derive(Clone, Copy)]
pub(crate) struct FreeOf<'a> {
    pub known: &'a Known<'a>,
    pub id: ExprId,
    pub ghost there: { id.place < length known.now.exprs },
    pub ghost free: { names_none (term known.now id.place) ≡ true },
}

impl<'a> FreeOf<'a> {
    /// Its value.
    pub fn value(self) -> i128
        ensures { result ≡ value_of (shapes self.entry.known.now) zeros (term self.entry.known.now self.entry.id.place) }
    {
        let known = self.known;
        let _draft = known.draft;
        *known.fixed.values.at(self.id.place)
    }
}

/// A signal of a known draft.
#[derive(Clone, Copy)]
pub(crate) struct SignalOf<'a> {
    pub known: &'a Known<'a>,
    pub id: SigId,
    pub ghost there: { id.0 < length known.now.signals },
}

impl<'a> SignalOf<'a> {
    /// What the draft says of it.
    pub fn signal(self) -> &'a Signal
        ensures narrow { IsNarrow result.now.shape }
        ensures shape { result.now.shape ≡ shapes self.entry.known.now self.entry.id.0 }
        ensures reset { result.now.reset ≡ reset_of self.entry.known.now self.entry.id.0 }
    {
        let known = self.known;
        let draft = known.draft;
        draft.design().signals.at(self.id.0)
    }
}

/// A target of a known draft.
#[derive(Clone, Copy)]
pub(crate) struct TargetOf<'a> {
    pub known: &'a Known<'a>,
    pub id: TargetId,
    pub ghost there: { id.place < length known.now.targets },
}

impl<'a> TargetOf<'a> {
    /// Its node.
    pub fn target(self) -> &'a Target
        ensures stands { TargetStands (shapes self.entry.known.now) (length self.entry.known.now.signals) self.entry.known.now.exprs result.now }
        ensures tree { target self.entry.known.now self.entry.id.place ≡ node_target (term self.entry.known.now) (target self.entry.known.now) result.now }
    {
        let known = self.known;
        let draft = known.draft;
        draft.target(self.id)
    }
}

/// A statement of a known draft.
#[derive(Clone, Copy)]
pub(crate) struct StmtOf<'a> {
    pub known: &'a Known<'a>,
    pub id: StmtId,
    pub ghost there: { id.place < length known.now.stmts },
}

impl<'a> StmtOf<'a> {
    /// Its node, whose statements inside are lower.
    pub fn stmt(self) -> &'a Stmt
        ensures below { IsTrue (stmt_below result.now self.entry.id.place) }
        ensures stands { StmtStands (length self.entry.known.now.exprs) (length self.entry.known.now.targets) result.now }
        ensures tree { stmt self.entry.known.now self.entry.id.place ≡ node_stmt (term self.entry.known.now) (target self.entry.known.now) (stmt self.entry.known.now) result.now }
        ensures lines { (x : ℕ) → lines_at self.entry.known.now x self.entry.id.place ≡ node_lines_of self.entry.known.now x result.now }
    {
        let known = self.known;
        let draft = known.draft;
        draft.design().stmts.get(self.id)
    }
}

/// Statements of a known draft, each lower than a bound.
#[derive(Clone, Copy)]
pub(crate) struct BlockOf<'a> {
    pub known: &'a Known<'a>,
    pub ids: &'a [StmtId],
    pub bound: usize,
    pub ghost lower: { LowerStmts known.now bound ids.now },
}

/// Branches of a known draft, whose statements are each lower than a bound.
#[derive(Clone, Copy)]
pub(crate) struct BranchesOf<'a> {
    pub known: &'a Known<'a>,
    pub branches: &'a [Branch],
    pub bound: usize,
    pub ghost lower: { LowerBranches known.now bound branches.now },
}

/// A target of a known draft that is a signal, or some of its bits.
#[derive(Clone, Copy)]
pub(crate) struct OwnTarget<'a> {
    pub known: &'a Known<'a>,
    pub id: TargetId,
    pub signal: SigId,
    pub ghost there: { id.place < length known.now.targets },
    pub ghost plain: { is_plain_target signal.0 (target known.now id.place) ≡ true },
}

/// A statement of a known draft for a signal.
#[derive(Clone, Copy)]
pub(crate) struct OwnStmt<'a> {
    pub known: &'a Known<'a>,
    pub id: StmtId,
    pub signal: SigId,
    pub ghost there: { id.place < length known.now.stmts },
    pub ghost alone: { is_for signal.0 (stmt known.now id.place) ≡ true },
}

/// Statements of a known draft for a signal, each lower than a bound.
#[derive(Clone, Copy)]
pub(crate) struct OwnBlock<'a> {
    pub known: &'a Known<'a>,
    pub ids: &'a [StmtId],
    pub bound: usize,
    pub signal: SigId,
    pub ghost lower: { LowerStmts known.now bound ids.now },
    pub ghost alone: { are_for signal.0 (block known.now ids.now) ≡ true },
}

/// A statement of a known draft for a signal, which reads nothing.
#[derive(Clone, Copy)]
pub(crate) struct FreeStmt<'a> {
    pub known: &'a Known<'a>,
    pub id: StmtId,
    pub signal: SigId,
    pub ghost there: { id.place < length known.now.stmts },
    pub ghost free: { IsForFree signal.0 (stmt known.now id.place) },
}

/// Statements of a known draft for a signal, which read nothing, each lower than a bound.
#[derive(Clone, Copy)]
pub(crate) struct FreeBlock<'a> {
    pub known: &'a Known<'a>,
    pub ids: &'a [StmtId],
    pub bound: usize,
    pub signal: SigId,
    pub ghost lower: { LowerStmts known.now bound ids.now },
    pub ghost free: { AreForFree signal.0 (block known.now ids.now) },
}
