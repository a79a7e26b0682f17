//! What can be assigned to, and assignments.

ghost use Rattle.std.specs.Prelude.{◌≡◌, IfOk, slice_get, option_copied};
ghost use Rattle.lx_state.specs.Step.{Gives};
ghost use Rattle.lx_ops.specs.Targets.{aim_added, aim_after, aim_made, aim_reached, aim_there, aim_within, aims_after, aims_of, assign, assign_next, part_reach, reach_of, target_of};

use crate::exprs::{expr_of, expression};
use lx_fhdl::{Expr, ExprId, Target, TargetId};
use lx_objects::exprs::put_target;
use lx_objects::statements::{assign_made, next_value_made, node_sum};
use lx_state::lists::copied;
use lx_state::work::{fault, limit};
use lx_state::{Machine, Value};
use lx_text::{Kind, LimitKind, List, NoMemory, Refusal};
use std::alloc::Global;

/// A target, how many targets stand in it, and its levels of Cats and Arrays.
#[derive(Clone, Copy)]
pub struct Aim {
    pub target: TargetId,
    pub inside: u32,
    pub depth: u8,
}

/// Targets, how many they are with those that stand in them, and the most levels of one.
#[derive(Drop)]
pub struct Aims {
    pub targets: List<TargetId>,
    pub inside: u32,
    pub depth: u8,
}

/// What an expression is as a target.
#[derive(Drop)]
pub enum Reach {
    /// No target.
    Nothing,
    /// A target without others in it.
    Plain(Target),
    Cat(List<ExprId>),
    Pick(List<ExprId>, ExprId),
}

// Bits of a signal as a target.
fn part_reach(of: Option<&Expr>, low: u32, high: u32) -> Reach
    ensures { result ≡ part_reach (option_copied of.entry) low high }
{
    match of {
        Some(Expr::Sig(signal)) => {
            if low <= high && high < 256 {
                Reach::Plain(Target::Part {
                    signal: *signal,
                    low: low as u8,
                    len: (high - low) as u8,
                })
            } else {
                Reach::Nothing
            }
        }
        _ => Reach::Nothing,
    }
}

// What an expression is as a target.
fn reach_of(machine: &Machine, alloc: Global, id: ExprId) -> Result<Reach, NoMemory>
    ensures { IfOk result (λ reach. reach ≡ reach_of machine.now.shaped.exprs (slice_get machine.now.shaped.exprs id.place)) }
{
    match machine.shaped.node(id) {
        Some(Expr::Sig(signal)) => Ok(Reach::Plain(Target::Whole(*signal))),
        Some(Expr::Slice { of, low, high }) => {
            Ok(part_reach(machine.shaped.node(*of), *low, *high))
        }
        Some(Expr::Cat(parts)) => Ok(Reach::Cat(copied(alloc, parts)?)),
        Some(Expr::Pick { items, index }) => Ok(Reach::Pick(copied(alloc, items)?, *index)),
        _ => Ok(Reach::Nothing),
    }
}

#[tactic(auto, unfolding(crate::specs::Targets::aim_made))]
fn aim_made(
    machine: &mut Machine,
    line: u32,
    target: Target,
    inside: u32,
    depth: u8,
) -> Result<Aim, Refusal>
    ensures { Gives result machine.new (aim_made line target inside depth machine.old) }
{
    let target = put_target(machine, line, target)?;
    Ok(Aim {
        target,
        inside,
        depth,
    })
}

// Adds a target beside others.
#[tactic(auto, unfolding(crate::specs::Targets::aim_added))]
fn aim_added(machine: &Machine, line: u32, aims: Aims, aim: Aim) -> Result<Aims, Refusal>
    ensures { Gives result machine.now (aim_added line aims aim machine.now) }
{
    let Aims {
        mut targets,
        inside,
        depth,
    } = aims;
    let inside = node_sum(machine, line, inside, aim.inside)?;
    let more = node_sum(machine, line, inside, 1)?;
    targets.push(aim.target)?;
    Ok(Aims {
        targets,
        inside: more,
        depth: depth.max(aim.depth),
    })
}

// The targets that expressions are, behind others.
#[cycle(aim)]
#[tactic(auto, unfolding(crate::specs::Targets::aims_after))]
fn aims_after(
    machine: &mut Machine,
    alloc: Global,
    line: u32,
    levels: u8,
    start: Aims,
    ids: &[ExprId],
) -> Result<Aims, Refusal>
    ensures { Gives result machine.new (aims_after line (aim_within levels line) start ids.now machine.old) }
{
    let mut aims = start;
    for id in ids {
        aims = aim_after(machine, alloc, line, levels, aims, *id)?;
    }
    Ok(aims)
}

// The target that an expression is, behind others.
#[cycle(aim)]
#[tactic(auto, unfolding(crate::specs::Targets::aim_after))]
fn aim_after(
    machine: &mut Machine,
    alloc: Global,
    line: u32,
    levels: u8,
    aims: Aims,
    id: ExprId,
) -> Result<Aims, Refusal>
    ensures { Gives result machine.new (aim_after line (aim_within levels line) aims id machine.old) }
{
    let aim = aim_within(machine, alloc, line, levels, id)?;
    aim_added(machine, line, aims, aim)
}

#[cycle(aim)]
fn aim_reached(
    machine: &mut Machine,
    alloc: Global,
    line: u32,
    levels: u8,
    reach: Reach,
) -> Result<Aim, Refusal>
    ensures { Gives result machine.new (aim_reached line (aim_within levels line) reach machine.old) }
{
    match reach {
        Reach::Nothing => Err(fault(line, Kind::WrongKind)),
        Reach::Plain(target) => aim_made(machine, line, target, 0, 0),
        Reach::Cat(parts) => {
            let Aims {
                targets,
                inside,
                depth,
            } = aims_of(machine, alloc, line, levels, parts.as_slice())?;
            aim_made(machine, line, Target::Cat(targets), inside, depth)
        }
        Reach::Pick(items, index) => {
            let Aims {
                targets,
                inside,
                depth,
            } = aims_of(machine, alloc, line, levels, items.as_slice())?;
            let picked = Target::Pick {
                items: targets,
                index,
            };
            aim_made(machine, line, picked, inside, depth)
        }
    }
}

// The targets that expressions are, one level deeper.
#[cycle(aim)]
#[tactic(auto, unfolding(crate::specs::Targets::aims_of))]
fn aims_of(
    machine: &mut Machine,
    alloc: Global,
    line: u32,
    levels: u8,
    ids: &[ExprId],
) -> Result<Aims, Refusal>
    ensures { Gives result machine.new (aims_of line (aim_within levels line) ids.now machine.old) }
{
    let none = Aims {
        targets: List::new(alloc),
        inside: 0,
        depth: 0,
    };
    let Aims {
        targets,
        inside,
        depth,
    } = aims_after(machine, alloc, line, levels, none, ids)?;
    let deeper = machine.deeper(line, depth)?;
    Ok(Aims {
        targets,
        inside,
        depth: deeper,
    })
}

// What stands at the expression's place, as a target.
#[cycle(aim)]
fn aim_there(
    machine: &mut Machine,
    alloc: Global,
    line: u32,
    levels: u8,
    id: ExprId,
) -> Result<Aim, Refusal>
    ensures { Gives result machine.new (aim_there line (aim_within levels line) id machine.old) }
{
    let reach = reach_of(machine, alloc, id)?;
    aim_reached(machine, alloc, line, levels, reach)
}

// The target that an expression is, within so many levels of Cats and Arrays.
#[cycle(aim)]
#[tactic(auto, unfolding(crate::specs::Targets::aim_within))]
fn aim_within(
    machine: &mut Machine,
    alloc: Global,
    line: u32,
    levels: u8,
    id: ExprId,
) -> Result<Aim, Refusal>
    ensures { Gives result machine.new (aim_within levels line id machine.old) }
{
    if levels == 0 {
        return Err(limit(line, LimitKind::Depth));
    }
    aim_there(machine, alloc, line, levels - 1, id)
}

/// The target that an expression of FHDL is: a signal or a slice of one, a Cat of targets, or an item of an Array of
/// targets.
#[tactic(auto, unfolding(crate::specs::Targets::target_of))]
pub fn target_of(
    machine: &mut Machine,
    alloc: Global,
    line: u32,
    value: Value,
) -> Result<Aim, Refusal>
    ensures { Gives result machine.new (target_of line value machine.old) }
{
    match expression(value) {
        Some(id) => aim_within(machine, alloc, line, 64, id),
        None => Err(fault(line, Kind::WrongKind)),
    }
}

/// `eq`: an assignment of an expression or an integer, which counts itself and each target inside its target.
#[tactic(auto, unfolding(crate::specs::Targets::assign))]
pub fn assign(
    machine: &mut Machine,
    alloc: Global,
    line: u32,
    target: Value,
    value: Value,
) -> Result<Value, Refusal>
    ensures { Gives result machine.new (assign line target value machine.old) }
{
    let aim = target_of(machine, alloc, line, target)?;
    let source = expr_of(machine, line, value)?;
    assign_made(machine, line, aim.target, source, aim.inside, aim.depth)
}

/// `NextValue`, which counts as an assignment does.
#[tactic(auto, unfolding(crate::specs::Targets::assign_next))]
pub fn assign_next(
    machine: &mut Machine,
    alloc: Global,
    line: u32,
    target: Value,
    value: Value,
) -> Result<Value, Refusal>
    ensures { Gives result machine.new (assign_next line target value machine.old) }
{
    let aim = target_of(machine, alloc, line, target)?;
    let source = expr_of(machine, line, value)?;
    next_value_made(machine, line, aim.target, source, aim.inside, aim.depth)
}
