//! One moment of a lowered design: its expressions and combinatorial signals are evaluated in order, and the state
//! after a rise.

ghost use Rattle.std.specs.Prelude.{◌≡◌, ◌&&◌, ◌+◌, [], ℕ, ◌<◌, Some, length, not, slice_get, slice_index_or, IsTrue};
ghost use Rattle.lx_num.specs.Ints.{Fits};
ghost use Rattle.lx_circuit.specs.Circuit.{made};
ghost use Rattle.lx_circuit.specs.Values.{is_zero};
ghost use Rattle.lx_fhdl.specs.Below.{all_stmts_below};
ghost use Rattle.lx_fhdl.specs.Designs.{circuit_of};
ghost use Rattle.lx_fhdl.specs.Nodes.{node_value, shape_at, value_at};
ghost use Rattle.lx_fhdl.specs.declared.exprs.Expr.{Expr};
ghost use Rattle.lx_sim.specs.Blocks.{IsOwnBlock};
ghost use Rattle.lx_sim.specs.Evaluating.{Evaluates, IsBlockValue, IsCombValue, IsNextValue, IsRisen, IsRising, is_reset_by, reset_of};
ghost use Rattle.lx_sim.specs.Plans.{IsPlan};
ghost use Rattle.lx_sim.specs.Settled.{Advances, AllFit, Settles};
ghost use Rattle.lx_sim.specs.Settling.{MovesOn};
ghost use Rattle.lx_sim.specs.Words.{HaveWords, placed};

use crate::blocks::{after_block, known_at};
use crate::plan::Plan;
use crate::words::{fetched, is_rising};
use lx_arena::Id;
use lx_fhdl::{Expr, Steps, StmtId, eval_node};
use lx_num::{field, wrap};
use lx_sheet::Drive;
use lx_text::List;
use std::marker::PhantomData;
use std::sync::ledger::Ledger;

// The value of an expression.
fn eval<L: Ledger>(
    plan: &Plan,
    place: usize,
    vals: &[i128],
    words: &[List<i128>],
    known: &[i128],
    steps: &mut Steps<L>,
) -> i128
    requires plan { IsPlan plan.now }
    requires fit { AllFit plan.now vals.now known.now }
    requires words { HaveWords plan.now.design words.now }
    requires there { place < length plan.now.design.exprs }
    ensures value { (x : Expr) → slice_get plan.now.design.exprs place ≡ Some x → result ≡ node_value plan.now.shapes (placed vals.now words.now) known.now x }
    ensures fits { Fits (shape_at plan.now.shapes place) result }
    ensures cost { steps.new ≡ steps.old + 1 }
{
    let id = Id {
        place,
        of: PhantomData,
    };
    match plan.design.exprs.get(id) {
        Expr::Fetch { memory, width, at } => {
            steps.tick();
            fetched(words, *memory, *width, known_at(known, *at))
        }
        _ => eval_node(&plan.exprs, plan.shapes.as_slice(), id, vals, known, steps),
    }
}

// Evaluates expressions.
fn eval_all<L: Ledger>(
    plan: &Plan,
    places: &[usize],
    vals: &[i128],
    words: &[List<i128>],
    known: &mut [i128],
    steps: &mut Steps<L>,
)
    requires plan { IsPlan plan.now }
    requires fit { AllFit plan.now vals.now known.old }
    requires words { HaveWords plan.now.design words.now }
    requires rising { IsRising places.now }
    requires there { (i k : ℕ) → slice_get places.now i ≡ Some k → k < length plan.now.design.exprs }
    ensures values { Evaluates plan.now places.now vals.now words.now known.old known.new }
    ensures cost { steps.new ≡ steps.old + length places.now }
{
    for place in places {
        known[*place] = eval(plan, *place, vals, words, known, steps);
    }
}

// The value of a signal that had the value start, after statements that assign it.
fn block_value(plan: &Plan, x: usize, body: &[StmtId], start: i128, known: &[i128]) -> i128
    requires plan { IsPlan plan.now }
    requires there { x < length plan.now.design.signals }
    requires block { IsOwnBlock plan.now.design x known.now body.now }
    requires below { IsTrue (all_stmts_below (length plan.now.design.stmts) body.now) }
    ensures { IsBlockValue plan.now.design x known.now body.now start result }
{
    let shape = plan.design.signals.at(x).shape;
    let pattern = field(start, 0, shape.bits);
    let after = after_block(
        &plan.design,
        known,
        x,
        body,
        plan.design.stmts.len(),
        pattern,
    );
    wrap(after, shape)
}

// The value of a signal: that of its statements or its expression where it is combinatorial, else its own.
fn comb_value(plan: &Plan, x: usize, vals: &[i128], known: &[i128]) -> i128
    requires plan { IsPlan plan.now }
    requires fit { AllFit plan.now vals.now known.now }
    requires there { x < length plan.now.design.signals }
    ensures { IsCombValue plan.now.design x vals.now known.now result }
{
    let signal = plan.design.signals.at(x);
    match plan.drives.at(x) {
        Drive::CombAssign(value) => wrap(known_at(known, *value), signal.shape),
        Drive::CombBlock(body) => block_value(plan, x, body.as_slice(), signal.reset, known),
        _ => vals[x],
    }
}

// Evaluates the expressions of a place, and then its signal.
fn settle_place<L: Ledger>(
    plan: &Plan,
    place: usize,
    vals: &mut [i128],
    words: &[List<i128>],
    known: &mut [i128],
    steps: &mut Steps<L>,
)
    requires plan { IsPlan plan.now }
    requires fit { AllFit plan.now vals.old known.old }
    requires words { HaveWords plan.now.design words.now }
    requires there { place < length plan.now.order }
    ensures values { MovesOn plan.now place words.now vals.old known.old vals.new known.new }
    ensures cost { steps.new ≡ steps.old + length (slice_index_or plan.now.buckets place []) }
{
    eval_all(
        plan,
        plan.buckets.at(place).as_slice(),
        vals,
        words,
        known,
        steps,
    );
    let x = *plan.order.at(place);
    vals[x] = comb_value(plan, x, vals, known);
}

/// Evaluates all expressions and combinatorial signals, each once. It counts a step for each expression.
pub(crate) fn settle<L: Ledger>(
    plan: &Plan,
    vals: &mut [i128],
    words: &[List<i128>],
    known: &mut [i128],
    steps: &mut Steps<L>,
)
    requires plan { IsPlan plan.now }
    requires fit { AllFit plan.now vals.old known.old }
    requires words { HaveWords plan.now.design words.now }
    ensures values { Settles plan.now words.now vals.old vals.new known.new }
    ensures cost { steps.new ≡ steps.old + length plan.now.design.exprs }
{
    for place in 0..plan.order.len() {
        settle_place(plan, place, vals, words, known, steps);
    }
    eval_all(
        plan,
        plan.buckets.at(plan.order.len()).as_slice(),
        vals,
        words,
        known,
        steps,
    );
}

// Whether a signal is not 0.
fn is_set(vals: &[i128], x: usize) -> bool
    requires { x < length vals.now }
    ensures { result ≡ not (is_zero (value_at vals.now x)) }
{
    vals[x] != 0
}

// Whether a domain's reset is set.
fn is_reset(plan: &Plan, domain: usize, vals: &[i128]) -> bool
    requires plan { IsPlan plan.now }
    requires long { length vals.now ≡ length plan.now.design.signals }
    requires there { domain < length plan.now.design.domains }
    ensures { result ≡ is_reset_by vals.now (reset_of plan.now.design domain) }
{
    match plan.design.domains.at(domain).reset {
        Some(r) => is_set(vals, r.0),
        None => false,
    }
}

// Whether a signal takes its reset value at a rise of its domain.
fn is_to_reset(plan: &Plan, x: usize, domain: usize, vals: &[i128]) -> bool
    requires plan { IsPlan plan.now }
    requires long { length vals.now ≡ length plan.now.design.signals }
    requires there { x < length plan.now.design.signals }
    requires domain { domain < length plan.now.design.domains }
    ensures { result ≡ is_reset_by vals.now (reset_of plan.now.design domain) && not (made (circuit_of plan.now.design) x).reset_less }
{
    let stays = plan.design.signals.at(x).reset_less;
    is_reset(plan, domain, vals) && !stays
}

// The value of a signal after a rise of its domain.
fn risen(
    plan: &Plan,
    x: usize,
    domain: usize,
    body: &[StmtId],
    vals: &[i128],
    known: &[i128],
) -> i128
    requires plan { IsPlan plan.now }
    requires fit { AllFit plan.now vals.now known.now }
    requires there { x < length plan.now.design.signals }
    requires domain { domain < length plan.now.design.domains }
    requires block { IsOwnBlock plan.now.design x known.now body.now }
    requires below { IsTrue (all_stmts_below (length plan.now.design.stmts) body.now) }
    ensures { IsRisen plan.now.design x domain vals.now known.now body.now result }
{
    if is_to_reset(plan, x, domain, vals) {
        plan.design.signals.at(x).reset
    } else {
        block_value(plan, x, body, vals[x], known)
    }
}

// The value of a signal after these domains rose.
fn next_value(plan: &Plan, x: usize, rises: u32, vals: &[i128], known: &[i128]) -> i128
    requires plan { IsPlan plan.now }
    requires fit { AllFit plan.now vals.now known.now }
    requires there { x < length plan.now.design.signals }
    ensures { IsNextValue plan.now.design x rises vals.now known.now result }
{
    match plan.drives.at(x) {
        Drive::Sync { domain, body } => {
            if is_rising(rises, *domain) {
                risen(plan, x, *domain, body.as_slice(), vals, known)
            } else {
                vals[x]
            }
        }
        _ => vals[x],
    }
}

/// The values of all signals after these domains rose, before they settle.
pub(crate) fn advance(plan: &Plan, rises: u32, vals: &[i128], known: &[i128], next: &mut [i128])
    requires plan { IsPlan plan.now }
    requires fit { AllFit plan.now vals.now known.now }
    requires long { length next.old ≡ length plan.now.design.signals }
    ensures { Advances plan.now rises vals.now known.now next.new }
{
    for x in 0..next.len() {
        next[x] = next_value(plan, x, rises, vals, known);
    }
}
