//! Expressions of FHDL: nodes of an arena, whose children are named by their places.

ghost use Rattle.std.specs.Prelude.{◌≡◌, nat_lt};
ghost use Rattle.lx_fhdl.specs.Below.{all_below};

use lx_arena::{Arena, Id, Node};
use lx_tables::Op;
use lx_text::List;

/// A signal, by its place among the signals of a design.
#[derive(Clone, Copy, PartialEq, Eq)]
pub struct SigId(pub usize);

/// The tag of places in an arena of expressions.
#[derive(Clone, Copy, PartialEq, Eq)]
pub struct InExprs;

/// The place of an expression.
pub type ExprId = Id<InExprs>;

/// The expressions of a design.
pub type Exprs = Arena<Expr>;

/// An expression of FHDL ("Expressions" of the FHDL description), one node of an arena.
#[derive(Drop)]
pub enum Expr {
    /// A number, wrapped to the stated shape.
    Const {
        value: i128,
        bits: u32,
        signed: bool,
    },
    Sig(SigId),
    Unary {
        op: Op,
        of: ExprId,
    },
    Binary {
        op: Op,
        left: ExprId,
        right: ExprId,
    },
    /// `yes` where the condition is not 0, else `no`.
    Mux {
        cond: ExprId,
        yes: ExprId,
        no: ExprId,
    },
    /// The first part in the lowest bits.
    Cat(List<ExprId>),
    /// The item at the index, the last item where the index is at or past the number of items.
    Pick {
        items: List<ExprId>,
        index: ExprId,
    },
    Replicate {
        of: ExprId,
        count: u32,
    },
    /// Bits `low` to `high - 1`.
    Slice {
        of: ExprId,
        low: u32,
        high: u32,
    },
    /// The word of a memory at the index, of `width` bits; 0 at or past the memory's depth.
    Fetch {
        memory: usize,
        width: u8,
        at: ExprId,
    },
}

/// Whether all these places are lower than n.
fn all_lower(places: &[ExprId], n: usize) -> bool
    ensures { result ≡ all_below n places.now }
{
    for id in places {
        if id.place >= n {
            return false;
        }
    }
    true
}

impl Node for Expr {
    ghost use Rattle.lx_fhdl.specs.Below.{expr_below};

    type Tag = InExprs;

    ghost below = { expr_below };

    fn below(&self, n: usize) -> bool {
        match self {
            Expr::Const { .. } => true,
            Expr::Sig(_) => true,
            Expr::Unary { of, .. } => of.place < n,
            Expr::Binary { left, right, .. } => left.place < n && right.place < n,
            Expr::Mux { cond, yes, no } => cond.place < n && yes.place < n && no.place < n,
            Expr::Cat(parts) => all_lower(parts.as_slice(), n),
            Expr::Pick { items, index } => all_lower(items.as_slice(), n) && index.place < n,
            Expr::Replicate { of, .. } => of.place < n,
            Expr::Slice { of, .. } => of.place < n,
            Expr::Fetch { at, .. } => at.place < n,
        }
    }
}
