//! The two lists of statements of an FSM.

ghost use Rattle.std.specs.Prelude.{◌≡◌, ◌∷◌, ◌<◌, [], length, map, IfOk, OnOk};
ghost use Rattle.lx_circuit.specs.Statements as tree;
ghost use Rattle.lx_fhdl.specs.Keeping.{EachOf};
ghost use Rattle.lx_description.specs.declared.fsms.Asked.{Asked};
ghost use Rattle.lx_fsm.specs.Decls.{names_of, ongoing_of};
ghost use Rattle.lx_reads.specs.Drivings.{driving};
ghost use Rattle.lx_fsm.specs.Driven.{ongoing_driven};
ghost use Rattle.lx_fsm.specs.Lists.{is_in, ongoing_list};
ghost use Rattle.lx_fsm.specs.Lowers.{AreAll, AreThere, CanLower, IsListed, Lowers, Put, TargetPut, register};
ghost use Rattle.lx_fsm.specs.Machine.{start_among};

use crate::checks::{check_fsm, number_among};
use crate::growing::Growing;
use crate::numbers::{id_at, push_numbers};
use crate::source::Source;
use crate::states::{Part, put_assign, put_states};
use lx_description::{Asked, FsmDecl, FsmStmts};
use lx_fhdl::{ExprId, SigId, StmtId, Target, TargetId};
use lx_text::{List, NoMemory, Refusal};
use std::alloc::Global;

/// The statements that an FSM stands for, and the number of its reset state.
#[derive(Drop)]
pub struct FsmLists {
    /// In comb: the assignments of each state under `state == k`, then those of `ongoing`.
    pub comb: List<StmtId>,
    /// In the clock domain `sys`: the next state, and the `NextValue`s.
    pub sync: List<StmtId>,
    /// The reset value of `state`.
    pub start: usize,
}

// Adds a signal as a target.
#[tactic(auto, using(crate::proofs::Numbering::can_whole))]
fn push_whole(draft: &mut Growing, x: SigId) -> Result<TargetId, NoMemory>
    requires { x.0 < length draft.old.signals }
    ensures { IfOk result (λ id. TargetPut draft.old draft.new id.place (tree.Whole x.0)) }
{
    draft.keeps();
    let id = draft.push_target(Target::Whole(x))?;
    draft.keeps();
    Ok(id)
}

// Adds what a signal is that is `ongoing` of a state.
fn put_ongoing(
    draft: &mut Growing,
    fsm: &FsmDecl,
    conds: &[ExprId],
    asked: &Asked,
    out: &mut List<StmtId>,
) -> Result<(), NoMemory>
    requires out { AreThere draft.old out.old }
    requires some { 0 < length fsm.now.states }
    requires conds { AreAll draft.old (is_in (register draft.old fsm.now)) (length fsm.now.states) conds.now }
    requires asked { asked.now.signal.0 < length draft.old.signals }
    ensures { OnOk result (Put draft.old draft.new out.old out.new (ongoing_list (register draft.old fsm.now) (ongoing_of asked.now ∷ [])) (λ driver. driving driver fsm.now.line asked.now.signal.0 ∷ [])) }
{
    let states = fsm.states.as_slice();
    let number = number_among(states, asked.name.as_bytes());
    let target = push_whole(draft, asked.signal)?;
    let cond = id_at(conds, number);
    put_assign(draft, target, cond, fsm.line, out)
}

// Adds all that are.
fn put_all_ongoing(
    draft: &mut Growing,
    fsm: &FsmDecl,
    conds: &[ExprId],
    out: &mut List<StmtId>,
) -> Result<(), NoMemory>
    requires out { AreThere draft.old out.old }
    requires some { 0 < length fsm.now.states }
    requires conds { AreAll draft.old (is_in (register draft.old fsm.now)) (length fsm.now.states) conds.now }
    requires asked { EachOf (λ (a : Asked). a.signal.0 < length draft.old.signals) fsm.now.asked }
    ensures { OnOk result (Put draft.old draft.new out.old out.new (ongoing_list (register draft.old fsm.now) (map ongoing_of fsm.now.asked)) (λ driver. ongoing_driven driver fsm.now.line fsm.now.asked)) }
{
    let all = fsm.asked.as_slice();
    for asked in all {
        put_ongoing(draft, fsm, conds, asked, out)?;
    }
    Ok(())
}

// The number of the reset state.
pub(crate) fn start_of(fsm: &FsmDecl) -> usize
    ensures { result ≡ start_among (names_of fsm.now.states) fsm.now.start }
{
    match &fsm.start {
        Some(name) => number_among(fsm.states.as_slice(), name.as_bytes()),
        None => 0,
    }
}

// Adds the two lists of an FSM that has no fault.
fn put_lists(
    alloc: Global,
    fsm: &FsmDecl,
    stmts: &FsmStmts,
    into: &mut Growing,
) -> Result<FsmLists, NoMemory>
    requires can { CanLower into.old stmts.now fsm.now }
    requires some { 0 < length fsm.now.states }
    ensures { IfOk result (λ lists. IsListed into.old into.new stmts.now fsm.now lists) }
{
    stmts.lower();
    let numbers = push_numbers(alloc, into, fsm)?;
    let state = push_whole(into, fsm.state)?;
    let numerals = numbers.numerals.as_slice();
    let conds = numbers.conds.as_slice();
    let source = Source::new(fsm, stmts, state, numerals);
    let mut comb = List::new(alloc);
    put_states(alloc, &source, into, Part::Comb, conds, &mut comb)?;
    put_all_ongoing(into, fsm, conds, &mut comb)?;
    let mut sync = List::new(alloc);
    put_states(alloc, &source, into, Part::Sync, conds, &mut sync)?;
    let start = start_of(fsm);
    Ok(FsmLists { comb, sync, start })
}

/// Adds the statements that an FSM stands for to a draft, and gives the two lists: one of comb, and one of the clock domain
/// `sys`. `stmts` has the statements of all FSMs, over the draft's expressions and targets. The first fault of an FSM is
/// told on the line of its call, and leaves the draft as it was: `NoStates` where it has no states, else `UnknownState`
/// with the first name that no state has, of the reset state, the `NextState`s and the `ongoing`s. After `NoMemory` the
/// draft has some of the statements.
pub fn lower_fsm(
    alloc: Global,
    fsm: &FsmDecl,
    stmts: &FsmStmts,
    into: &mut Growing,
) -> Result<FsmLists, Refusal>
    requires { CanLower into.old stmts.now fsm.now }
    ensures { Lowers into.old into.new stmts.now fsm.now result }
{
    check_fsm(alloc, fsm, stmts)?;
    let lists = put_lists(alloc, fsm, stmts, into)?;
    Ok(lists)
}
