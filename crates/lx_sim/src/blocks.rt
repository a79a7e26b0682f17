//! The pattern of a signal after the statements that assign it, from the values of all expressions.

ghost use Rattle.std.specs.Prelude.{◌≡◌, ◌<◌, ◌≤◌, length, not, IsTrue};
ghost use Rattle.lx_circuit.specs.Values.{is_zero};
ghost use Rattle.lx_fhdl.specs.Below.{all_stmts_below};
ghost use Rattle.lx_fhdl.specs.Nodes.{value_at};
ghost use Rattle.lx_sim.specs.Blocks.{IsBlockRun, IsOwnBlock, IsOwnStmt, IsOwnTarget, IsPattern, IsStmtRun, IsTargetRun};

use lx_fhdl::{Design, ExprId, Stmt, StmtId, Target, TargetId};
use lx_num::with_field;

// A pattern with the bits of a target taken from a number.
fn after_target(design: &Design, x: usize, id: TargetId, number: i128, pattern: i128) -> i128
    requires target { IsOwnTarget design.now x id }
    requires pattern { IsPattern pattern }
    ensures { IsTargetRun design.now x id number pattern result }
{
    match design.targets.get(id) {
        Target::Whole(signal) => {
            with_field(pattern, 0, design.signals.at(signal.0).shape.bits, number)
        }
        Target::Part { low, len, .. } => with_field(pattern, *low, *len, number),
        Target::Cat(_) => unreachable!(),
        Target::Pick { .. } => unreachable!(),
    }
}

/// The value of an expression.
pub(crate) fn known_at(known: &[i128], id: ExprId) -> i128
    requires { id.place < length known.now }
    ensures { result ≡ value_at known.now id.place }
{
    known[id.place]
}

// Whether a condition holds.
fn holds(known: &[i128], id: ExprId) -> bool
    requires { id.place < length known.now }
    ensures { result ≡ not (is_zero (value_at known.now id.place)) }
{
    known[id.place] != 0
}

// The pattern of signal x after a statement.
#[cycle(blocks)]
fn after_stmt(design: &Design, known: &[i128], x: usize, id: StmtId, pattern: i128) -> i128
    requires stmt { IsOwnStmt design.now x known.now id }
    requires pattern { IsPattern pattern }
    ensures { IsStmtRun design.now x known.now id pattern result }
{
    match design.stmts.get(id) {
        Stmt::Assign { target, value, .. } => {
            after_target(design, x, *target, known_at(known, *value), pattern)
        }
        Stmt::If { branches, rest, .. } => {
            let branch = branches.at(0);
            if holds(known, branch.cond) {
                after_block(design, known, x, branch.body.as_slice(), id.place, pattern)
            } else {
                after_block(design, known, x, rest.as_slice(), id.place, pattern)
            }
        }
        Stmt::Case { .. } => unreachable!(),
    }
}

// The pattern of signal x after the statements of a list, all below the bound.
#[cycle(blocks)]
pub(crate) fn after_block(
    design: &Design,
    known: &[i128],
    x: usize,
    ids: &[StmtId],
    bound: usize,
    pattern: i128,
) -> i128
    requires block { IsOwnBlock design.now x known.now ids.now }
    requires below { IsTrue (all_stmts_below bound ids.now) }
    requires bound { bound ≤ length design.now.stmts }
    requires pattern { IsPattern pattern }
    ensures { IsBlockRun design.now x known.now ids.now pattern result }
{
    let mut now = pattern;
    for id in ids {
        now = after_stmt(design, known, x, *id, now);
    }
    now
}
