//! The nodes of a Verilog module: expressions and statements (IEEE 1364-2005, "Expressions" and "Procedural assignments").

ghost use Rattle.std.specs.Prelude.{◌≡◌, ◌<◌, length, IsTrue};
ghost use Rattle.lx_vtree.specs.Below.{are_below, is_below};
ghost use Rattle.lx_vtree.specs.Stmts.{are_stmts_below, is_stmt_below};

use lx_arena::{Id, Node};
use lx_text::{List, Word};
use lx_vtext::{BinOp, UnOp};

/// The tag of expressions' places.
#[derive(Clone, Copy, PartialEq, Eq)]
pub struct InExprs;

/// The tag of statements' places.
#[derive(Clone, Copy, PartialEq, Eq)]
pub struct InStmts;

/// The place of an expression.
pub type ExprId = Id<InExprs>;

/// The place of a statement.
pub type StmtId = Id<InStmts>;

/// A literal of 1 to 128 bits: `4'd9`, and `4'sd9` where it is signed.
#[derive(Clone, Copy, PartialEq, Eq)]
pub struct Literal {
    pub bits: u8,
    pub signed: bool,
    /// The pattern, below 2 to the bits.
    pub value: u128,
}

/// An expression; its parts are named by their places.
#[derive(Drop)]
pub enum VExpr {
    /// `name`
    Net(Word),
    /// `4'd9`
    Literal(Literal),
    /// `name[hi:lo]`
    PartSelect {
        name: Word,
        hi: u64,
        lo: u64,
    },
    /// `name[index]`, a word of a memory
    Word {
        name: Word,
        index: ExprId,
    },
    /// `(-of)`
    Unary {
        op: UnOp,
        of: ExprId,
    },
    /// `(left + right)`
    Binary {
        left: ExprId,
        op: BinOp,
        right: ExprId,
    },
    /// `(cond ? so : other)`
    Conditional {
        cond: ExprId,
        so: ExprId,
        other: ExprId,
    },
    /// `{first, more}`, the first part in the highest bits
    Concatenation {
        first: ExprId,
        more: List<ExprId>,
    },
    /// `{count{of}}`
    Replication {
        count: u64,
        of: ExprId,
    },
    /// `$signed(of)`
    ToSigned(ExprId),
    /// `$unsigned(of)`
    ToUnsigned(ExprId),
}

/// What an assignment writes.
#[derive(Drop)]
pub enum VTarget {
    /// `name`
    Whole(Word),
    /// `name[hi:lo]`
    Part {
        name: Word,
        hi: u64,
        lo: u64,
    },
    /// `name[index]`, a word of a memory
    WholeWord {
        name: Word,
        index: ExprId,
    },
    /// `name[index][hi:lo]`
    PartWord {
        name: Word,
        index: ExprId,
        hi: u64,
        lo: u64,
    },
}

/// A statement; the statements inside it are named by their places.
#[derive(Drop)]
pub enum VStmt {
    /// `target = value;` where it is blocking, else `target <= value;`
    Assign {
        target: VTarget,
        blocking: bool,
        value: ExprId,
    },
    /// `if (cond) begin`, `so`, `end else begin`, `other`, `end`
    When {
        cond: ExprId,
        so: List<StmtId>,
        other: Option<List<StmtId>>,
    },
}

impl Node for VExpr {
    type Tag = InExprs;

    ghost below = { λ e n. is_below e n };

    fn below(&self, n: usize) -> bool {
        match self {
            VExpr::Net(_) | VExpr::Literal(_) | VExpr::PartSelect { .. } => true,
            VExpr::Word { index, .. } => index.place < n,
            VExpr::Unary { of, .. }
            | VExpr::Replication { of, .. }
            | VExpr::ToSigned(of)
            | VExpr::ToUnsigned(of) => of.place < n,
            VExpr::Binary { left, right, .. } => left.place < n && right.place < n,
            VExpr::Conditional { cond, so, other } => cond.place < n
                && so.place < n
                && other.place < n,
            VExpr::Concatenation { first, more } => first.place < n
                && exprs_below(more.as_slice(), n),
        }
    }
}

// Whether all these places are lower than `n`.
fn exprs_below(ids: &[ExprId], n: usize) -> bool
    ensures { result ≡ are_below ids.now n }
{
    for id in ids {
        if id.place >= n {
            return false;
        }
    }
    true
}

impl Node for VStmt {
    type Tag = InStmts;

    ghost below = { λ s n. is_stmt_below s n };

    fn below(&self, n: usize) -> bool {
        match self {
            VStmt::Assign { .. } => true,
            VStmt::When {
                so,
                other: None,
                ..
            } => stmts_below(so.as_slice(), n),
            VStmt::When {
                so,
                other: Some(other),
                ..
            } => stmts_below(so.as_slice(), n) && stmts_below(other.as_slice(), n),
        }
    }
}

// Whether all these places are lower than `n`.
pub(crate) fn stmts_below(ids: &[StmtId], n: usize) -> bool
    ensures { result ≡ are_stmts_below ids.now n }
{
    for id in ids {
        if id.place >= n {
            return false;
        }
    }
    true
}
