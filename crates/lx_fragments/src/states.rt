//! The statements of the states of FSMs, laid out in the arena that a description has for them, with all that stands in
//! them.

ghost use Rattle.std.specs.Prelude.{◌≡◌, ◌++◌, IfOk, OnOk, map, slice_get};
ghost use Rattle.lx_state.specs.Step.{Gives};
ghost use Rattle.lx_fragments.specs.States.{act, act_all, act_arms, act_branch, act_branches, act_case, act_form, act_if, act_next, bodies_of, body_at, body_of, places_of, put_fsm_stmt, state_of, states_of, text_at};

use crate::laying::{branches_to, statement_at};
use lx_arena::Node;
use lx_description::{FsmArm, FsmBranch, FsmStmt, FsmStmtId, StateDecl};
use lx_fhdl::ExprId;
use lx_state::lists::copied;
use lx_state::machine::{Form, Fsm, Machine, Made, MadeArm};
use lx_state::work::{fault, limit};
use lx_text::{Kind, LimitKind, List, NoMemory, Refusal, Word};
use std::alloc::Global;

/// A state with the places of its statements.
#[derive(Drop)]
pub struct Body {
    pub name: Word,
    pub places: List<usize>,
}

// A node at the end of the arena, where what stands in it is there.
#[tactic(auto, unfolding(crate::specs::States::put_fsm_stmt))]
fn put_fsm_stmt(machine: &mut Machine, line: u32, node: FsmStmt) -> Result<FsmStmtId, Refusal>
    ensures { Gives result machine.new (put_fsm_stmt line node machine.old) }
{
    if !node.below(machine.fsm_stmts.len()) {
        return Err(fault(line, Kind::WrongKind));
    }
    let id = machine.fsm_stmts.push(node)?;
    Ok(id)
}

// The state that a `NextState` goes to.
#[tactic(auto, unfolding(crate::specs::States::text_at))]
fn text_at(machine: &Machine, alloc: Global, line: u32, at: usize) -> Result<Word, Refusal>
    ensures { Gives result machine.now (text_at line at machine.now) }
{
    match machine.texts.get(at) {
        Some(word) => Ok(word.copied(alloc)?),
        None => Err(fault(line, Kind::WrongKind)),
    }
}

#[tactic(auto, unfolding(crate::specs::States::act_next))]
fn act_next(
    machine: &mut Machine,
    alloc: Global,
    line: u32,
    at: usize,
) -> Result<FsmStmtId, Refusal>
    ensures { Gives result machine.new (act_next line at machine.old) }
{
    let name = text_at(machine, alloc, line, at)?;
    put_fsm_stmt(machine, line, FsmStmt::NextState { name, line })
}

// Lays out the statement at a place, within so many levels; it stands in one on this line.
#[cycle(act)]
#[tactic(auto, unfolding(crate::specs::States::act))]
fn act(
    machine: &mut Machine,
    alloc: Global,
    levels: u8,
    line: u32,
    at: usize,
) -> Result<FsmStmtId, Refusal>
    ensures { Gives result machine.new (act levels line at machine.old) }
{
    if levels == 0 {
        return Err(limit(line, LimitKind::Depth));
    }
    let Made { form, line, .. } = statement_at(machine, alloc, line, at)?;
    act_form(machine, alloc, levels - 1, line, at, form)
}

#[cycle(act)]
fn act_form(
    machine: &mut Machine,
    alloc: Global,
    levels: u8,
    line: u32,
    at: usize,
    form: Form,
) -> Result<FsmStmtId, Refusal>
    ensures { Gives result machine.new (act_form line (act_all (act levels line)) at form machine.old) }
{
    match form {
        Form::Assign { target, value } => put_fsm_stmt(
            machine,
            line,
            FsmStmt::Assign {
                target,
                value,
                line,
            },
        ),
        Form::If { .. } => act_if(machine, alloc, levels, line, at, &[]),
        Form::Else { before, body } => {
            act_if(machine, alloc, levels, line, before, body.as_slice())
        }
        Form::Case { on, arms, rest } => act_case(
            machine,
            alloc,
            levels,
            line,
            on,
            arms.as_slice(),
            rest.as_slice(),
        ),
        Form::NextState { name } => act_next(machine, alloc, line, name),
        Form::NextValue { target, value } => put_fsm_stmt(
            machine,
            line,
            FsmStmt::NextValue {
                target,
                value,
                line,
            },
        ),
    }
}

// The branches of an `If` up to one, and the rest.
#[cycle(act)]
#[tactic(auto, unfolding(crate::specs::States::act_if))]
fn act_if(
    machine: &mut Machine,
    alloc: Global,
    levels: u8,
    line: u32,
    last: usize,
    rest: &[usize],
) -> Result<FsmStmtId, Refusal>
    ensures { Gives result machine.new (act_if line (act_all (act levels line)) last rest.now machine.old) }
{
    let places = branches_to(machine, alloc, last)?;
    let branches = act_branches(machine, alloc, levels, line, places.as_slice())?;
    let rest = act_all(machine, alloc, levels, line, rest)?;
    put_fsm_stmt(
        machine,
        line,
        FsmStmt::If {
            branches,
            rest,
            line,
        },
    )
}

#[cycle(act)]
#[tactic(auto, unfolding(crate::specs::States::act_branches))]
fn act_branches(
    machine: &mut Machine,
    alloc: Global,
    levels: u8,
    line: u32,
    places: &[usize],
) -> Result<List<FsmBranch>, Refusal>
    ensures { Gives result machine.new (act_branches line (act_all (act levels line)) places.now machine.old) }
{
    let mut branches = List::new(alloc);
    for at in places {
        let branch = act_branch(machine, alloc, levels, line, *at)?;
        if branches.push(branch).is_err() {
            return Err(Refusal::NoMemory);
        }
    }
    Ok(branches)
}

#[cycle(act)]
#[tactic(auto, unfolding(crate::specs::States::act_branch))]
fn act_branch(
    machine: &mut Machine,
    alloc: Global,
    levels: u8,
    line: u32,
    at: usize,
) -> Result<FsmBranch, Refusal>
    ensures { Gives result machine.new (act_branch line (act_all (act levels line)) at machine.old) }
{
    let Made { form, .. } = statement_at(machine, alloc, line, at)?;
    match form {
        Form::If { cond, body, .. } => {
            let body = act_all(machine, alloc, levels, line, body.as_slice())?;
            Ok(FsmBranch { cond, body })
        }
        Form::Assign { .. }
        | Form::Else { .. }
        | Form::Case { .. }
        | Form::NextState { .. }
        | Form::NextValue { .. } => Err(fault(line, Kind::WrongKind)),
    }
}

// The arms of a `Case`, and the rest.
#[cycle(act)]
#[tactic(auto, unfolding(crate::specs::States::act_case))]
fn act_case(
    machine: &mut Machine,
    alloc: Global,
    levels: u8,
    line: u32,
    on: ExprId,
    arms: &[MadeArm],
    rest: &[usize],
) -> Result<FsmStmtId, Refusal>
    ensures { Gives result machine.new (act_case line (act_all (act levels line)) on arms.now rest.now machine.old) }
{
    let arms = act_arms(machine, alloc, levels, line, arms)?;
    let rest = act_all(machine, alloc, levels, line, rest)?;
    put_fsm_stmt(
        machine,
        line,
        FsmStmt::Case {
            on,
            arms,
            rest,
            line,
        },
    )
}

#[cycle(act)]
#[tactic(auto, unfolding(crate::specs::States::act_arms))]
fn act_arms(
    machine: &mut Machine,
    alloc: Global,
    levels: u8,
    line: u32,
    arms: &[MadeArm],
) -> Result<List<FsmArm>, Refusal>
    ensures { Gives result machine.new (act_arms (act_all (act levels line)) arms.now machine.old) }
{
    let mut laid = List::new(alloc);
    for arm in arms {
        let body = act_all(machine, alloc, levels, line, arm.body.as_slice())?;
        if laid.push(FsmArm { key: arm.key, body }).is_err() {
            return Err(Refusal::NoMemory);
        }
    }
    Ok(laid)
}

// Statements that stand in one on this line, within so many levels.
#[cycle(act)]
#[tactic(auto, unfolding(crate::specs::States::act_all))]
fn act_all(
    machine: &mut Machine,
    alloc: Global,
    levels: u8,
    line: u32,
    places: &[usize],
) -> Result<List<FsmStmtId>, Refusal>
    ensures { Gives result machine.new (act_all (act levels line) places.now machine.old) }
{
    let mut ids = List::new(alloc);
    for at in places {
        let id = act(machine, alloc, levels, line, *at)?;
        if ids.push(id).is_err() {
            return Err(Refusal::NoMemory);
        }
    }
    Ok(ids)
}

// ---- states

// The statements of a state.
fn places_of(alloc: Global, fsm: &Fsm, at: usize) -> Result<List<usize>, NoMemory>
    ensures { IfOk result (λ places. places ≡ places_of (slice_get fsm.now.bodies at)) }
{
    match fsm.bodies.get(at) {
        Some(places) => copied(alloc, places),
        None => Ok(List::new(alloc)),
    }
}

// Adds the state of a number.
fn push_body(into: &mut List<Body>, alloc: Global, fsm: &Fsm, number: usize) -> Result<(), NoMemory>
    ensures { OnOk result (into.new ≡ into.old ++ body_at fsm.now (slice_get fsm.now.names number)) }
{
    match fsm.names.at(number) {
        Some((name, at)) => {
            let name = Word::new(alloc, name)?;
            let places = places_of(alloc, fsm, at)?;
            into.push(Body { name, places })
        }
        None => Ok(()),
    }
}

// The states of an FSM.
#[tactic(auto, using(crate::proofs::Bodies::bodies_end))]
fn bodies(alloc: Global, fsm: &Fsm) -> Result<List<Body>, NoMemory>
    ensures { IfOk result (λ list. list ≡ map (body_of fsm.now) fsm.now.names) }
{
    let mut list = List::new(alloc);
    for number in 0..fsm.names.len() {
        push_body(&mut list, alloc, fsm, number)?;
    }
    Ok(list)
}

/// The states of the FSM at a place, in the order of their numbers.
pub fn bodies_of(machine: &Machine, alloc: Global, at: usize) -> Result<List<Body>, NoMemory>
    ensures { IfOk result (λ list. list ≡ bodies_of (slice_get machine.now.fsms at)) }
{
    match machine.fsms.get(at) {
        Some(fsm) => bodies(alloc, fsm),
        None => Ok(List::new(alloc)),
    }
}

// Lays out the statements of a state.
#[tactic(auto, unfolding(crate::specs::States::state_of))]
fn state_of(machine: &mut Machine, alloc: Global, body: &Body) -> Result<StateDecl, Refusal>
    ensures { Gives result machine.new (state_of body.now machine.old) }
{
    let ids = act_all(machine, alloc, 64, 0, body.places.as_slice())?;
    let name = body.name.copied(alloc)?;
    Ok(StateDecl { name, body: ids })
}

/// Lays out the statements of states.
#[tactic(auto, unfolding(crate::specs::States::states_of))]
pub fn states_of(
    machine: &mut Machine,
    alloc: Global,
    bodies: &[Body],
) -> Result<List<StateDecl>, Refusal>
    ensures { Gives result machine.new (states_of bodies.now machine.old) }
{
    let mut states = List::new(alloc);
    for body in bodies {
        let state = state_of(machine, alloc, body)?;
        if states.push(state).is_err() {
            return Err(Refusal::NoMemory);
        }
    }
    Ok(states)
}
