//! The statements of the states, as those of one of the two lists.

ghost use Rattle.std.specs.Prelude.{[], ◌∷◌, ◌++◌, ◌≡◌, ℕ, ◌&&◌, ◌<◌, ◌≤◌, length, map, IfOk, IsTrue, OnOk};
ghost use Rattle.lx_circuit.specs.Terms.{Term};
ghost use Rattle.lx_circuit.specs.Statements as tree;
ghost use Rattle.lx_description.specs.Below.{all_fsm_arms_below, all_fsm_below, all_fsm_branches_below};
ghost use Rattle.lx_description.specs.Keeping.{FsmBranchesStand};
ghost use Rattle.lx_fhdl.specs.Designs as designs;
ghost use Rattle.lx_fhdl.specs.Designs.{term};
ghost use Rattle.lx_fhdl.specs.Drafts.{CanAddStmt};
ghost use Rattle.lx_fhdl.specs.Lowered.{is_done};
ghost use Rattle.lx_fhdl.specs.Stmts as stmts;
ghost use Rattle.lx_fhdl.specs.Stmts.{node_stmt};
ghost use Rattle.lx_lowering.specs.Flat.{one, some_when};
ghost use Rattle.lx_fsm.specs.Actions.{Case, If, NextState};
ghost use Rattle.lx_fsm.specs.Decls.{act, acts_at, arms_at, branches_at, state_of};
ghost use Rattle.lx_reads.specs.Drivings.{assign_drivings, driving};
ghost use Rattle.lx_fsm.specs.Driven.{acts_driven, arms_driven, branches_driven, later_driven, now_driven, states_driven};
ghost use Rattle.lx_fsm.specs.Lists.{all_kept, are_empty, arms_empty, by_state, is_in, kept, kept_arms, kept_branches};
ghost use Rattle.lx_fsm.specs.Lowers.{AreAll, AreThere, ArmsPut, BranchesPut, HasBodies, IsReady, Put, StmtsPut, becomes, later_of, node_more, now_of, reads_driven, register};

use crate::growing::Growing;
use crate::numbers::id_at;
use crate::source::Source;
use lx_description::{FsmArm, FsmBranch, FsmStmt, FsmStmtId, StateDecl};
use lx_fhdl::{Arm, Branch, ExprId, Stmt, StmtId, TargetId};
use lx_text::{List, NoMemory, Word};
use std::alloc::Global;

/// Which of the two lists.
#[derive(Clone, Copy)]
pub enum Part {
    /// That of comb.
    Comb,
    /// That of the clock domain.
    Sync,
}

// Whether nothing stands in an `If`.
fn is_empty_if(branches: &[Branch], rest: &[StmtId]) -> bool
    ensures { (t : ℕ → Term) (s : ℕ → tree.Stmt) → result ≡ (are_empty (stmts.branches_at t s branches.now) && is_done (stmts.block_at s rest.now)) }
{
    for branch in branches {
        if !branch.body.is_empty() {
            return false;
        }
    }
    let none = rest.is_empty();
    none
}

// Whether nothing stands in a `Case`.
fn is_empty_case(arms: &[Arm], rest: &[StmtId]) -> bool
    ensures { (s : ℕ → tree.Stmt) → result ≡ (arms_empty (stmts.arms_at s arms.now) && is_done (stmts.block_at s rest.now)) }
{
    for arm in arms {
        if !arm.body.is_empty() {
            return false;
        }
    }
    let none = rest.is_empty();
    none
}

// Adds a statement to a list.
fn put_stmt(draft: &mut Growing, node: Stmt, out: &mut List<StmtId>) -> Result<(), NoMemory>
    requires node { CanAddStmt draft.old node }
    requires out { AreThere draft.old out.old }
    ensures { OnOk result (Put draft.old draft.new out.old out.new (one (node_stmt (term draft.old) (designs.target draft.old) (designs.stmt draft.old) node)) (node_more draft.old node)) }
{
    draft.keeps();
    let id = draft.push_stmt(node)?;
    draft.keeps();
    out.push(id)?;
    Ok(())
}

// Adds an assignment.
pub(crate) fn put_assign(
    draft: &mut Growing,
    target: TargetId,
    value: ExprId,
    line: u32,
    out: &mut List<StmtId>,
) -> Result<(), NoMemory>
    requires target { target.place < length draft.old.targets }
    requires value { value.place < length draft.old.exprs }
    requires out { AreThere draft.old out.old }
    ensures { OnOk result (Put draft.old draft.new out.old out.new (one (tree.Assign (designs.target draft.old target.place) (term draft.old value.place))) (λ driver. assign_drivings driver line (designs.target draft.old target.place))) }
{
    let node = Stmt::Assign {
        target,
        value,
        line,
    };
    put_stmt(draft, node, out)
}

// Adds an assignment in comb.
fn put_now(
    draft: &mut Growing,
    part: Part,
    target: TargetId,
    value: ExprId,
    line: u32,
    out: &mut List<StmtId>,
) -> Result<(), NoMemory>
    requires target { target.place < length draft.old.targets }
    requires value { value.place < length draft.old.exprs }
    requires out { AreThere draft.old out.old }
    ensures { OnOk result (Put draft.old draft.new out.old out.new (now_of part (designs.target draft.old target.place) (term draft.old value.place)) (λ driver. now_driven part (assign_drivings driver line (designs.target draft.old target.place)))) }
{
    match part {
        Part::Comb => put_assign(draft, target, value, line, out),
        Part::Sync => Ok(()),
    }
}

// Adds the assignment of a NextValue in the clock domain.
fn put_later(
    draft: &mut Growing,
    part: Part,
    target: TargetId,
    value: ExprId,
    line: u32,
    out: &mut List<StmtId>,
) -> Result<(), NoMemory>
    requires target { target.place < length draft.old.targets }
    requires value { value.place < length draft.old.exprs }
    requires out { AreThere draft.old out.old }
    ensures { OnOk result (Put draft.old draft.new out.old out.new (later_of part (designs.target draft.old target.place) (term draft.old value.place)) (λ driver. later_driven part (assign_drivings driver line (designs.target draft.old target.place)))) }
{
    match part {
        Part::Comb => Ok(()),
        Part::Sync => put_assign(draft, target, value, line, out),
    }
}

// Adds the assignment of a NextState in the clock domain.
fn put_next(
    source: &Source,
    draft: &mut Growing,
    part: Part,
    name: &Word,
    line: u32,
    out: &mut List<StmtId>,
) -> Result<(), NoMemory>
    requires ready { IsReady source.now draft.old }
    requires out { AreThere draft.old out.old }
    ensures { OnOk result (Put draft.old draft.new out.old out.new (becomes (register draft.old source.now.fsm) part (NextState name.now)) (λ driver. later_driven part (driving driver line source.now.fsm.state.0 ∷ []))) }
{
    match part {
        Part::Comb => Ok(()),
        Part::Sync => {
            let value = source.numeral(name.as_bytes());
            let state = source.state();
            put_assign(draft, state, value, line, out)
        }
    }
}

// Adds what is kept of a statement.
#[cycle(put)]
fn put_act(
    alloc: Global,
    source: &Source,
    draft: &mut Growing,
    part: Part,
    id: FsmStmtId,
    out: &mut List<StmtId>,
) -> Result<(), NoMemory>
    requires ready { IsReady source.now draft.old }
    requires out { AreThere draft.old out.old }
    requires place { id.place < length source.now.stmts }
    ensures { OnOk result (Put draft.old draft.new out.old out.new (kept (becomes (register draft.old source.now.fsm) part) (act draft.old source.now.stmts id.place)) (λ driver. reads_driven source.now draft.old part driver id.place)) }
{
    match source.stmt(id) {
        FsmStmt::Assign {
            target,
            value,
            line,
        } => put_now(draft, part, *target, *value, *line, out),
        FsmStmt::NextValue {
            target,
            value,
            line,
        } => put_later(draft, part, *target, *value, *line, out),
        FsmStmt::NextState { name, line } => put_next(source, draft, part, name, *line, out),
        FsmStmt::If {
            branches,
            rest,
            line,
        } => {
            let branches = branches.as_slice();
            let rest = rest.as_slice();
            put_if(
                alloc, source, draft, part, branches, rest, id.place, *line, out,
            )
        }
        FsmStmt::Case {
            on,
            arms,
            rest,
            line,
        } => {
            let arms = arms.as_slice();
            let rest = rest.as_slice();
            put_case(
                alloc, source, draft, part, *on, arms, rest, id.place, *line, out,
            )
        }
    }
}

// Adds what is kept of an `If`, where something is.
#[cycle(put)]
fn put_if(
    alloc: Global,
    source: &Source,
    draft: &mut Growing,
    part: Part,
    branches: &[FsmBranch],
    rest: &[FsmStmtId],
    bound: usize,
    line: u32,
    out: &mut List<StmtId>,
) -> Result<(), NoMemory>
    requires ready { IsReady source.now draft.old }
    requires out { AreThere draft.old out.old }
    requires within { bound ≤ length source.now.stmts }
    requires conds { FsmBranchesStand (length draft.old.exprs) branches.now }
    requires branches { IsTrue (all_fsm_branches_below bound branches.now) }
    requires rest { IsTrue (all_fsm_below bound rest.now) }
    ensures { OnOk result (Put draft.old draft.new out.old out.new (kept (becomes (register draft.old source.now.fsm) part) (If (branches_at (term draft.old) (act draft.old source.now.stmts) branches.now) (acts_at (act draft.old source.now.stmts) rest.now))) (λ driver. branches_driven (reads_driven source.now draft.old part driver) branches.now ++ acts_driven (reads_driven source.now draft.old part driver) rest.now)) }
{
    let branches = lower_branches(alloc, source, draft, part, branches, bound)?;
    let rest = lower_acts(alloc, source, draft, part, rest, bound)?;
    if is_empty_if(branches.as_slice(), rest.as_slice()) {
        return Ok(());
    }
    put_stmt(
        draft,
        Stmt::If {
            branches,
            rest,
            line,
        },
        out,
    )
}

// Adds what is kept of a `Case`, where something is.
#[cycle(put)]
fn put_case(
    alloc: Global,
    source: &Source,
    draft: &mut Growing,
    part: Part,
    on: ExprId,
    arms: &[FsmArm],
    rest: &[FsmStmtId],
    bound: usize,
    line: u32,
    out: &mut List<StmtId>,
) -> Result<(), NoMemory>
    requires ready { IsReady source.now draft.old }
    requires out { AreThere draft.old out.old }
    requires within { bound ≤ length source.now.stmts }
    requires on { on.place < length draft.old.exprs }
    requires arms { IsTrue (all_fsm_arms_below bound arms.now) }
    requires rest { IsTrue (all_fsm_below bound rest.now) }
    ensures { OnOk result (Put draft.old draft.new out.old out.new (kept (becomes (register draft.old source.now.fsm) part) (Case (term draft.old on.place) (arms_at (act draft.old source.now.stmts) arms.now) (acts_at (act draft.old source.now.stmts) rest.now))) (λ driver. arms_driven (reads_driven source.now draft.old part driver) arms.now ++ acts_driven (reads_driven source.now draft.old part driver) rest.now)) }
{
    let arms = lower_arms(alloc, source, draft, part, arms, bound)?;
    let rest = lower_acts(alloc, source, draft, part, rest, bound)?;
    if is_empty_case(arms.as_slice(), rest.as_slice()) {
        return Ok(());
    }
    put_stmt(
        draft,
        Stmt::Case {
            on,
            arms,
            rest,
            line,
        },
        out,
    )
}

// What is kept of statements that are each lower than `bound`.
#[cycle(put)]
fn lower_acts(
    alloc: Global,
    source: &Source,
    draft: &mut Growing,
    part: Part,
    ids: &[FsmStmtId],
    bound: usize,
) -> Result<List<StmtId>, NoMemory>
    requires ready { IsReady source.now draft.old }
    requires within { bound ≤ length source.now.stmts }
    requires below { IsTrue (all_fsm_below bound ids.now) }
    ensures { IfOk result (λ list. StmtsPut draft.old draft.new list (all_kept (becomes (register draft.old source.now.fsm) part) (acts_at (act draft.old source.now.stmts) ids.now)) (λ driver. acts_driven (reads_driven source.now draft.old part driver) ids.now)) }
{
    let mut list = List::new(alloc);
    for id in ids {
        put_act(alloc, source, draft, part, *id, &mut list)?;
    }
    Ok(list)
}

#[cycle(put)]
fn lower_branches(
    alloc: Global,
    source: &Source,
    draft: &mut Growing,
    part: Part,
    branches: &[FsmBranch],
    bound: usize,
) -> Result<List<Branch>, NoMemory>
    requires ready { IsReady source.now draft.old }
    requires within { bound ≤ length source.now.stmts }
    requires conds { FsmBranchesStand (length draft.old.exprs) branches.now }
    requires below { IsTrue (all_fsm_branches_below bound branches.now) }
    ensures { IfOk result (λ list. BranchesPut draft.old draft.new list (kept_branches (becomes (register draft.old source.now.fsm) part) (branches_at (term draft.old) (act draft.old source.now.stmts) branches.now)) (λ driver. branches_driven (reads_driven source.now draft.old part driver) branches.now)) }
{
    let mut list = List::new(alloc);
    for branch in branches {
        let body = branch.body.as_slice();
        let body = lower_acts(alloc, source, draft, part, body, bound)?;
        list.push(Branch {
            cond: branch.cond,
            body,
        })?;
    }
    Ok(list)
}

#[cycle(put)]
fn lower_arms(
    alloc: Global,
    source: &Source,
    draft: &mut Growing,
    part: Part,
    arms: &[FsmArm],
    bound: usize,
) -> Result<List<Arm>, NoMemory>
    requires ready { IsReady source.now draft.old }
    requires within { bound ≤ length source.now.stmts }
    requires below { IsTrue (all_fsm_arms_below bound arms.now) }
    ensures { IfOk result (λ list. ArmsPut draft.old draft.new list (kept_arms (becomes (register draft.old source.now.fsm) part) (arms_at (act draft.old source.now.stmts) arms.now)) (λ driver. arms_driven (reads_driven source.now draft.old part driver) arms.now)) }
{
    let mut list = List::new(alloc);
    for arm in arms {
        let body = arm.body.as_slice();
        let body = lower_acts(alloc, source, draft, part, body, bound)?;
        list.push(Arm { key: arm.key, body })?;
    }
    Ok(list)
}

// Adds what is kept of a state under the condition that the FSM is in it.
fn put_state(
    alloc: Global,
    source: &Source,
    draft: &mut Growing,
    part: Part,
    cond: ExprId,
    state: &StateDecl,
    out: &mut List<StmtId>,
) -> Result<(), NoMemory>
    requires ready { IsReady source.now draft.old }
    requires out { AreThere draft.old out.old }
    requires cond { cond.place < length draft.old.exprs }
    requires below { IsTrue (all_fsm_below (length source.now.stmts) state.now.body) }
    ensures { OnOk result (Put draft.old draft.new out.old out.new (some_when (term draft.old cond.place) (all_kept (becomes (register draft.old source.now.fsm) part) (acts_at (act draft.old source.now.stmts) state.now.body))) (λ driver. acts_driven (reads_driven source.now draft.old part driver) state.now.body)) }
{
    let bound = source.len();
    let body = state.body.as_slice();
    let body = lower_acts(alloc, source, draft, part, body, bound)?;
    if body.is_empty() {
        return Ok(());
    }
    let branches = List::of_one(alloc, Branch { cond, body })?;
    let rest = List::new(alloc);
    let line = source.line();
    put_stmt(
        draft,
        Stmt::If {
            branches,
            rest,
            line,
        },
        out,
    )
}

/// Adds what is kept of all states.
pub(crate) fn put_states(
    alloc: Global,
    source: &Source,
    draft: &mut Growing,
    part: Part,
    conds: &[ExprId],
    out: &mut List<StmtId>,
) -> Result<(), NoMemory>
    requires ready { IsReady source.now draft.old }
    requires out { AreThere draft.old out.old }
    requires conds { AreAll draft.old (is_in (register draft.old source.now.fsm)) (length source.now.fsm.states) conds.now }
    requires bodies { HasBodies (length source.now.stmts) source.now.fsm.states }
    ensures { OnOk result (Put draft.old draft.new out.old out.new (by_state (register draft.old source.now.fsm) (becomes (register draft.old source.now.fsm) part) 0 (map (state_of draft.old source.now.stmts) source.now.fsm.states)) (λ driver. states_driven (reads_driven source.now draft.old part driver) source.now.fsm.states)) }
{
    let states = source.states();
    for (number, state) in states.iter().enumerate() {
        let cond = id_at(conds, number);
        put_state(alloc, source, draft, part, cond, state, out)?;
    }
    Ok(())
}
