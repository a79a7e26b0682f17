//! Finite state machines (Migen's `genlib.fsm`): states with statements, nodes of an arena of their own.

ghost use Rattle.std.specs.Prelude.{◌≡◌, nat_lt};
ghost use Rattle.lx_description.specs.Below.{all_fsm_below, all_fsm_branches_below, all_fsm_arms_below};

use lx_arena::{Arena, Id, Node};
use lx_fhdl::{ExprId, SigId, TargetId};
use lx_text::{List, Word};

/// The tag of places in an arena of statements of FSMs.
#[derive(Clone, Copy, PartialEq, Eq)]
pub struct InFsmStmts;

/// The place of a statement of an FSM.
pub type FsmStmtId = Id<InFsmStmts>;

/// The statements of all FSMs of a description.
pub type FsmStmts = Arena<FsmStmt>;

/// A statement inside a state, one node of an arena: one of FHDL, a `NextState` or a `NextValue`. Its line isn't 0.
#[derive(Drop)]
pub enum FsmStmt {
    Assign {
        target: TargetId,
        value: ExprId,
        line: u32,
    },
    /// The first branch whose condition is not 0, else the rest.
    If {
        branches: List<FsmBranch>,
        rest: List<FsmStmtId>,
        line: u32,
    },
    /// The arm whose key is the value, else the rest.
    Case {
        on: ExprId,
        arms: List<FsmArm>,
        rest: List<FsmStmtId>,
        line: u32,
    },
    /// The state after the next rise of `sys`.
    NextState {
        name: Word,
        line: u32,
    },
    /// What the target is assigned at the next rise of `sys`.
    NextValue {
        target: TargetId,
        value: ExprId,
        line: u32,
    },
}

/// A condition of an `If` with its statements.
#[derive(Drop)]
pub struct FsmBranch {
    pub cond: ExprId,
    pub body: List<FsmStmtId>,
}

/// A key of a `Case` with its statements.
#[derive(Drop)]
pub struct FsmArm {
    pub key: i128,
    pub body: List<FsmStmtId>,
}

/// A state with the statements of all its `act`s.
#[derive(Drop)]
pub struct StateDecl {
    pub name: Word,
    pub body: List<FsmStmtId>,
}

/// A signal that is 1 in a state (`ongoing`).
#[derive(Drop)]
pub struct Asked {
    /// The name of the state.
    pub name: Word,
    /// One unsigned bit.
    pub signal: SigId,
    /// The line of its first call.
    pub line: u32,
}

/// Where an FSM was added: what stands in the design before its statements.
#[derive(Clone, Copy, PartialEq, Eq)]
pub struct FsmPlace {
    /// How many combinatorial statements.
    pub comb: usize,
    /// How many parts of clock domains.
    pub sync: usize,
}

/// An FSM (`FSM`), which runs in the domain `sys`.
#[derive(Drop)]
pub struct FsmDecl {
    /// The number of the state that it is in, of the fewest unsigned bits that hold all.
    pub state: SigId,
    /// The first state, where it is stated (`reset_state`); else it is the first of the states.
    pub start: Option<Word>,
    /// At most 256, in the order of their first `act`s; no two have the same name.
    pub states: List<StateDecl>,
    pub asked: List<Asked>,
    /// Where it was added, if it was: one that never was gives no statements.
    pub place: Option<FsmPlace>,
    /// The line of its call.
    pub line: u32,
}

/// Whether all these places are lower than n.
fn all_lower(places: &[FsmStmtId], n: usize) -> bool
    ensures { result ≡ all_fsm_below n places.now }
{
    for id in places {
        if id.place >= n {
            return false;
        }
    }
    true
}

/// Whether the statements of all these branches are lower than n.
fn branches_lower(branches: &[FsmBranch], n: usize) -> bool
    ensures { result ≡ all_fsm_branches_below n branches.now }
{
    for branch in branches {
        if !all_lower(branch.body.as_slice(), n) {
            return false;
        }
    }
    true
}

/// Whether the statements of all these arms are lower than n.
fn arms_lower(arms: &[FsmArm], n: usize) -> bool
    ensures { result ≡ all_fsm_arms_below n arms.now }
{
    for arm in arms {
        if !all_lower(arm.body.as_slice(), n) {
            return false;
        }
    }
    true
}

impl Node for FsmStmt {
    ghost use Rattle.lx_description.specs.Below.{fsm_below};

    type Tag = InFsmStmts;

    ghost below = { fsm_below };

    fn below(&self, n: usize) -> bool {
        match self {
            FsmStmt::Assign { .. } | FsmStmt::NextState { .. } | FsmStmt::NextValue { .. } => true,
            FsmStmt::If { branches, rest, .. } => {
                branches_lower(branches.as_slice(), n) && all_lower(rest.as_slice(), n)
            }
            FsmStmt::Case { arms, rest, .. } => {
                arms_lower(arms.as_slice(), n) && all_lower(rest.as_slice(), n)
            }
        }
    }
}
