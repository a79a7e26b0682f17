//! Statements and their targets: nodes of arenas, whose children are named by their places.

ghost use Rattle.std.specs.Prelude.{◌≡◌, nat_lt};
ghost use Rattle.lx_fhdl.specs.Below.{all_targets_below, all_stmts_below, all_branches_below, all_arms_below};

use crate::exprs::{ExprId, SigId};
use lx_arena::{Arena, Id, Node};
use lx_text::List;

/// The tag of places in an arena of targets.
#[derive(Clone, Copy, PartialEq, Eq)]
pub struct InTargets;

/// The tag of places in an arena of statements.
#[derive(Clone, Copy, PartialEq, Eq)]
pub struct InStmts;

/// The place of a target.
pub type TargetId = Id<InTargets>;

/// The place of a statement.
pub type StmtId = Id<InStmts>;

/// The targets of a design.
pub type Targets = Arena<Target>;

/// The statements of a design.
pub type Stmts = Arena<Stmt>;

/// What an assignment changes, one node of an arena.
#[derive(Drop)]
pub enum Target {
    Whole(SigId),
    /// Bits `low` to `low + len - 1` of a signal.
    Part {
        signal: SigId,
        low: u8,
        len: u8,
    },
    /// The first part takes the lowest bits.
    Cat(List<TargetId>),
    /// The item at the index, the last item where the index is at or past the number of items.
    Pick {
        items: List<TargetId>,
        index: ExprId,
    },
}

/// A statement, one node of an arena; its line is 0 in generated hardware.
#[derive(Drop)]
pub enum Stmt {
    Assign {
        target: TargetId,
        value: ExprId,
        line: u32,
    },
    /// The first branch whose condition is not 0, else the rest.
    If {
        branches: List<Branch>,
        rest: List<StmtId>,
        line: u32,
    },
    /// The arm whose key is the value, else the rest.
    Case {
        on: ExprId,
        arms: List<Arm>,
        rest: List<StmtId>,
        line: u32,
    },
}

/// A condition of an `If` with its statements.
#[derive(Drop)]
pub struct Branch {
    pub cond: ExprId,
    pub body: List<StmtId>,
}

/// A key of a `Case` with its statements.
#[derive(Drop)]
pub struct Arm {
    pub key: i128,
    pub body: List<StmtId>,
}

/// Whether all these places are lower than n.
fn targets_lower(places: &[TargetId], n: usize) -> bool
    ensures { result ≡ all_targets_below n places.now }
{
    for id in places {
        if id.place >= n {
            return false;
        }
    }
    true
}

/// Whether all these places are lower than n.
fn stmts_lower(places: &[StmtId], n: usize) -> bool
    ensures { result ≡ all_stmts_below n places.now }
{
    for id in places {
        if id.place >= n {
            return false;
        }
    }
    true
}

/// Whether the statements of all these branches are lower than n.
fn branches_lower(branches: &[Branch], n: usize) -> bool
    ensures { result ≡ all_branches_below n branches.now }
{
    for branch in branches {
        if !stmts_lower(branch.body.as_slice(), n) {
            return false;
        }
    }
    true
}

/// Whether the statements of all these arms are lower than n.
fn arms_lower(arms: &[Arm], n: usize) -> bool
    ensures { result ≡ all_arms_below n arms.now }
{
    for arm in arms {
        if !stmts_lower(arm.body.as_slice(), n) {
            return false;
        }
    }
    true
}

impl Node for Target {
    ghost use Rattle.lx_fhdl.specs.Below.{target_below};

    type Tag = InTargets;

    ghost below = { target_below };

    fn below(&self, n: usize) -> bool {
        match self {
            Target::Whole(_) | Target::Part { .. } => true,
            Target::Cat(parts) => targets_lower(parts.as_slice(), n),
            Target::Pick { items, .. } => targets_lower(items.as_slice(), n),
        }
    }
}

impl Node for Stmt {
    ghost use Rattle.lx_fhdl.specs.Below.{stmt_below};

    type Tag = InStmts;

    ghost below = { stmt_below };

    fn below(&self, n: usize) -> bool {
        match self {
            Stmt::Assign { .. } => true,
            Stmt::If { branches, rest, .. } => {
                branches_lower(branches.as_slice(), n) && stmts_lower(rest.as_slice(), n)
            }
            Stmt::Case { arms, rest, .. } => {
                arms_lower(arms.as_slice(), n) && stmts_lower(rest.as_slice(), n)
            }
        }
    }
}
