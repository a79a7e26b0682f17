//! An FSM that is read, with the statements of all FSMs, and where `state` and the numbers of its states stand.

ghost use Rattle.std.specs.Prelude.{◌≡◌, ◌<◌, length, slice_get, IsTrue, Some};
ghost use Rattle.lx_description.specs.Below.{fsm_below};
ghost use Rattle.lx_fsm.specs.Decls.{names_of};
ghost use Rattle.lx_fsm.specs.Machine.{number_among};

use crate::checks::number_among;
use crate::numbers::id_at;
use lx_description::{FsmDecl, FsmStmt, FsmStmtId, FsmStmts, StateDecl};
use lx_fhdl::{ExprId, TargetId};
use std::marker::Model;

/// What is read. A contract sees it as a record of its parts.
#[derive(Drop)]
pub struct Source<'a> {
    fsm: &'a FsmDecl,
    stmts: &'a FsmStmts,
    state: TargetId,
    numerals: &'a [ExprId],
}

impl<'a> Model for Source<'a> {
    ghost use Rattle.lx_fsm.specs.Lowers.{Read};

    ghost Value = { Read };

    ghost view = { λ s. record { fsm = s.fsm.now; stmts = s.stmts.now; state = s.state; numerals = s.numerals.now } };
}

impl<'a> Source<'a> {
    /// An FSM with these statements, this target and these numbers.
    pub fn new(
        fsm: &'a FsmDecl,
        stmts: &'a FsmStmts,
        state: TargetId,
        numerals: &'a [ExprId],
    ) -> Source<'a>
        ensures { result ≡ record { fsm = fsm.now; stmts = stmts.now; state = state; numerals = numerals.now } }
    {
        Source {
            fsm,
            stmts,
            state,
            numerals,
        }
    }

    /// The statement at a place; those inside are lower.
    pub fn stmt(&self, id: FsmStmtId) -> &'a FsmStmt
        requires { id.place < length self.now.stmts }
        ensures item { slice_get self.now.stmts id.place ≡ Some result.now }
        ensures below { IsTrue (fsm_below result.now id.place) }
    {
        let stmts = self.stmts;
        stmts.get(id)
    }

    /// The number of statements of all FSMs.
    pub fn len(&self) -> usize
        ensures { result ≡ length self.now.stmts }
    {
        let stmts = self.stmts;
        stmts.len()
    }

    /// The states.
    pub fn states(&self) -> &'a [StateDecl]
        ensures { result.now ≡ self.now.fsm.states }
    {
        let fsm = self.fsm;
        fsm.states.as_slice()
    }

    /// The line of its call.
    pub fn line(&self) -> u32
        ensures { result ≡ self.now.fsm.line }
    {
        let fsm = self.fsm;
        fsm.line
    }

    /// `state` as a target.
    pub fn state(&self) -> TargetId
        ensures { result ≡ self.now.state }
    {
        self.state
    }

    /// The number of the state of a name.
    pub fn numeral(&self, name: &[u8]) -> ExprId
        requires some { 0 < length self.now.fsm.states }
        requires long { length self.now.numerals ≡ length self.now.fsm.states }
        ensures { slice_get self.now.numerals (number_among (names_of self.now.fsm.states) name.now) ≡ Some result }
    {
        let fsm = self.fsm;
        let numerals = self.numerals;
        let number = number_among(fsm.states.as_slice(), name);
        id_at(numerals, number)
    }
}
