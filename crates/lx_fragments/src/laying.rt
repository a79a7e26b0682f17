//! A statement that a description has made becomes one of the design, with all that stands in it.

ghost use Rattle.std.specs.Prelude.{◌≡◌, ◌++◌, ◌∷◌, [], IfOk, OnOk, Some, length, slice_get};
ghost use Rattle.lx_state.specs.Step.{Gives};
ghost use Rattle.lx_fragments.specs.Laying.{before, branch_of, branches_to, chain, lay, lay_all, lay_arms, lay_branch, lay_branches, lay_case, lay_form, lay_if, lay_out, statement_at};

use crate::copies::made_copied;
use lx_fhdl::{Arm, Branch, ExprId, Stmt, StmtId};
use lx_objects::exprs::put_stmt;
use lx_state::machine::{Form, Machine, Made, MadeArm};
use lx_state::work::{fault, limit};
use lx_text::{Kind, LimitKind, List, NoMemory, Refusal};
use std::alloc::Global;

/// The statement at a place.
#[tactic(auto, unfolding(crate::specs::Laying::statement_at))]
pub fn statement_at(machine: &Machine, alloc: Global, line: u32, at: usize) -> Result<Made, Refusal>
    ensures { Gives result machine.now (statement_at line at machine.now) }
{
    match machine.made.get(at) {
        Some(made) => Ok(made_copied(alloc, made)?),
        None => Err(fault(line, Kind::WrongKind)),
    }
}

// The branch before an `Elif`.
fn before(machine: &Machine, at: usize) -> Option<usize>
    ensures { result ≡ before (slice_get machine.now.made at) }
{
    match machine.made.get(at) {
        Some(made) => match made.form {
            Form::If { before, .. } => before,
            Form::Assign { .. }
            | Form::Else { .. }
            | Form::Case { .. }
            | Form::NextState { .. }
            | Form::NextValue { .. } => None,
        },
        None => None,
    }
}

// A branch of an `If` and those before it, the last one first.
fn chain(machine: &Machine, alloc: Global, last: usize) -> Result<Vec<usize>, NoMemory>
    ensures { IfOk result (λ places. places.items ≡ chain machine.now.made (length machine.now.made) (Some last)) }
{
    let mut places = Vec::new(alloc);
    let mut next = Some(last);
    let mut left = machine.made.len();
    while left > 0 {
        match next {
            Some(at) => {
                places.push(at)?;
                next = before(machine, at);
                left -= 1;
            }
            None => return Ok(places),
        }
    }
    Ok(places)
}

// The branches of an `If` up to one, in the order of the text.
pub(crate) fn branches_to(
    machine: &Machine,
    alloc: Global,
    last: usize,
) -> Result<List<usize>, NoMemory>
    ensures { IfOk result (λ places. places ≡ branches_to machine.now last) }
{
    let mut places = chain(machine, alloc, last)?;
    places.reverse();
    Ok(List::from_vec(places))
}

/// Lays out the statement at a place, within so many levels; it stands in one on this line.
#[cycle(lay)]
#[tactic(auto, unfolding(crate::specs::Laying::lay))]
pub fn lay(
    machine: &mut Machine,
    alloc: Global,
    levels: u8,
    line: u32,
    at: usize,
) -> Result<StmtId, Refusal>
    ensures { Gives result machine.new (lay levels line at machine.old) }
{
    if levels == 0 {
        return Err(limit(line, LimitKind::Depth));
    }
    let Made { form, line, .. } = statement_at(machine, alloc, line, at)?;
    lay_form(machine, alloc, levels - 1, line, at, form)
}

#[cycle(lay)]
fn lay_form(
    machine: &mut Machine,
    alloc: Global,
    levels: u8,
    line: u32,
    at: usize,
    form: Form,
) -> Result<StmtId, Refusal>
    ensures { Gives result machine.new (lay_form line (lay_all (lay levels line)) at form machine.old) }
{
    match form {
        Form::Assign { target, value } => put_stmt(
            machine,
            line,
            Stmt::Assign {
                target,
                value,
                line,
            },
        ),
        Form::If { .. } => lay_if(machine, alloc, levels, line, at, &[]),
        Form::Else { before, body } => {
            lay_if(machine, alloc, levels, line, before, body.as_slice())
        }
        Form::Case { on, arms, rest } => lay_case(
            machine,
            alloc,
            levels,
            line,
            on,
            arms.as_slice(),
            rest.as_slice(),
        ),
        Form::NextState { .. } | Form::NextValue { .. } => Err(fault(line, Kind::WrongKind)),
    }
}

// The branches of an `If` up to one, and the rest.
#[cycle(lay)]
#[tactic(auto, unfolding(crate::specs::Laying::lay_if))]
fn lay_if(
    machine: &mut Machine,
    alloc: Global,
    levels: u8,
    line: u32,
    last: usize,
    rest: &[usize],
) -> Result<StmtId, Refusal>
    ensures { Gives result machine.new (lay_if line (lay_all (lay levels line)) last rest.now machine.old) }
{
    let places = branches_to(machine, alloc, last)?;
    let branches = lay_branches(machine, alloc, levels, line, places.as_slice())?;
    let rest = lay_all(machine, alloc, levels, line, rest)?;
    put_stmt(
        machine,
        line,
        Stmt::If {
            branches,
            rest,
            line,
        },
    )
}

#[cycle(lay)]
#[tactic(auto, unfolding(crate::specs::Laying::lay_branches))]
fn lay_branches(
    machine: &mut Machine,
    alloc: Global,
    levels: u8,
    line: u32,
    places: &[usize],
) -> Result<List<Branch>, Refusal>
    ensures { Gives result machine.new (lay_branches line (lay_all (lay levels line)) places.now machine.old) }
{
    let mut branches = List::new(alloc);
    for at in places {
        let branch = lay_branch(machine, alloc, levels, line, *at)?;
        if branches.push(branch).is_err() {
            return Err(Refusal::NoMemory);
        }
    }
    Ok(branches)
}

#[cycle(lay)]
#[tactic(auto, unfolding(crate::specs::Laying::lay_branch))]
fn lay_branch(
    machine: &mut Machine,
    alloc: Global,
    levels: u8,
    line: u32,
    at: usize,
) -> Result<Branch, Refusal>
    ensures { Gives result machine.new (lay_branch line (lay_all (lay levels line)) at machine.old) }
{
    let Made { form, .. } = statement_at(machine, alloc, line, at)?;
    match form {
        Form::If { cond, body, .. } => {
            let body = lay_all(machine, alloc, levels, line, body.as_slice())?;
            Ok(Branch { cond, body })
        }
        Form::Assign { .. }
        | Form::Else { .. }
        | Form::Case { .. }
        | Form::NextState { .. }
        | Form::NextValue { .. } => Err(fault(line, Kind::WrongKind)),
    }
}

// The arms of a `Case`, and the rest.
#[cycle(lay)]
#[tactic(auto, unfolding(crate::specs::Laying::lay_case))]
fn lay_case(
    machine: &mut Machine,
    alloc: Global,
    levels: u8,
    line: u32,
    on: ExprId,
    arms: &[MadeArm],
    rest: &[usize],
) -> Result<StmtId, Refusal>
    ensures { Gives result machine.new (lay_case line (lay_all (lay levels line)) on arms.now rest.now machine.old) }
{
    let arms = lay_arms(machine, alloc, levels, line, arms)?;
    let rest = lay_all(machine, alloc, levels, line, rest)?;
    put_stmt(
        machine,
        line,
        Stmt::Case {
            on,
            arms,
            rest,
            line,
        },
    )
}

#[cycle(lay)]
#[tactic(auto, unfolding(crate::specs::Laying::lay_arms))]
fn lay_arms(
    machine: &mut Machine,
    alloc: Global,
    levels: u8,
    line: u32,
    arms: &[MadeArm],
) -> Result<List<Arm>, Refusal>
    ensures { Gives result machine.new (lay_arms (lay_all (lay levels line)) arms.now machine.old) }
{
    let mut laid = List::new(alloc);
    for arm in arms {
        let body = lay_all(machine, alloc, levels, line, arm.body.as_slice())?;
        if laid.push(Arm { key: arm.key, body }).is_err() {
            return Err(Refusal::NoMemory);
        }
    }
    Ok(laid)
}

// Statements that stand in one on this line, within so many levels.
#[cycle(lay)]
#[tactic(auto, unfolding(crate::specs::Laying::lay_all))]
fn lay_all(
    machine: &mut Machine,
    alloc: Global,
    levels: u8,
    line: u32,
    places: &[usize],
) -> Result<List<StmtId>, Refusal>
    ensures { Gives result machine.new (lay_all (lay levels line) places.now machine.old) }
{
    let mut ids = List::new(alloc);
    for at in places {
        let id = lay(machine, alloc, levels, line, *at)?;
        if ids.push(id).is_err() {
            return Err(Refusal::NoMemory);
        }
    }
    Ok(ids)
}

/// Lays out statements that stand in no other.
pub fn lay_out(
    machine: &mut Machine,
    alloc: Global,
    places: &[usize],
) -> Result<List<StmtId>, Refusal>
    ensures { Gives result machine.new (lay_out places.now machine.old) }
{
    lay_all(machine, alloc, 64, 0, places)
}
