//! Statements of one signal that read nothing: one assignment of what they give.

ghost use Rattle.std.specs.Prelude.{◌≡◌, ◌+◌, ◌<◌, ◌≤◌, length, Some};
ghost use Rattle.lx_circuit.specs.Statements.{after_pieces, laid_over, pieces, taken, taken_block};
ghost use Rattle.lx_fhdl.specs.Designs as designs;
ghost use Rattle.lx_fhdl.specs.Designs.{block, shapes};
ghost use Rattle.lx_fhdl.specs.Stmts.{branches_at};
ghost use Rattle.lx_lowering.specs.Constants.{block_reads_none, branches_read_none, reads_none, zeros};
ghost use Rattle.lx_lower.specs.Fixed.{chosen, chosen_lines, folded_in};
ghost use Rattle.lx_plain.specs.Lines.{first_line, folded_lines, lines, lines_at};

use crate::known::{
    BlockOf, BranchesOf, ExprOf, FreeBlock, FreeOf, FreeStmt, OwnBlock, OwnStmt, OwnTarget,
    SignalOf, StmtOf, TargetOf,
};
use lx_fhdl::{Stmt, Target};
use lx_num::{with_field, wrap};

/// A number in the place of statements, from a line.
#[derive(Clone, Copy)]
pub struct Folded {
    pub value: i128,
    pub line: u32,
}

/// Whether a statement names neither a signal nor a word of a memory in its values and conditions.
#[cycle(reads)]
fn reads_none(stmt: StmtOf) -> bool
    ensures { result ≡ reads_none (designs.stmt stmt.entry.known.now stmt.entry.id.place) }
{
    let known = stmt.known;
    let bound = stmt.id.place;
    match stmt.stmt() {
        Stmt::Assign { value, .. } => (ExprOf { known, id: *value }).is_free(),
        Stmt::If { branches, rest, .. } => {
            let branches = branches.as_slice();
            let ids = rest.as_slice();
            let own = BranchesOf {
                known,
                branches,
                bound,
            };
            branches_read_none(own) && block_reads_none(BlockOf { known, ids, bound })
        }
        Stmt::Case { .. } => false,
    }
}

/// Whether branches name nothing in their conditions and statements.
#[cycle(reads)]
fn branches_read_none(branches: BranchesOf) -> bool
    ensures { result ≡ branches_read_none (branches_at (designs.term branches.entry.known.now) (designs.stmt branches.entry.known.now) branches.entry.branches.now) }
{
    let known = branches.known;
    let bound = branches.bound;
    for branch in branches.branches {
        let cond = ExprOf {
            known,
            id: branch.cond,
        };
        if !cond.is_free() {
            return false;
        }
        let ids = branch.body.as_slice();
        if !block_reads_none(BlockOf { known, ids, bound }) {
            return false;
        }
    }
    true
}

/// Whether statements name nothing in their values and conditions.
#[cycle(reads)]
fn block_reads_none(stmts: BlockOf) -> bool
    ensures { result ≡ block_reads_none (block stmts.entry.known.now stmts.entry.ids.now) }
{
    let known = stmts.known;
    for id in stmts.ids {
        if !reads_none(StmtOf { known, id: *id }) {
            return false;
        }
    }
    true
}

/// A pattern whose bits low to low + len - 1 become the lowest bits of a number.
fn lay(pattern: u64, low: u8, len: u8, number: i128) -> u64
    requires some { 1 ≤ len }
    requires end { low + len ≤ 64 }
    ensures { result ≡ laid_over pattern low len number }
{
    with_field(pattern as i128, low, len, number) as u64
}

/// The pattern of a signal after an assignment to it.
fn after_assign(target: OwnTarget, pattern: u64, number: i128) -> u64
    ensures { result ≡ after_pieces target.entry.signal.0 pattern (pieces (shapes target.entry.known.now) zeros (designs.target target.entry.known.now target.entry.id.place) number) }
{
    let known = target.known;
    let id = target.id;
    match (TargetOf { known, id }).target() {
        Target::Whole(y) => {
            let signal = SignalOf { known, id: *y };
            lay(pattern, 0, signal.signal().shape.bits, number)
        }
        Target::Part { signal, low, len } => {
            let signal = SignalOf { known, id: *signal };
            let _bits = signal.signal().shape.bits;
            lay(pattern, *low, *len, number)
        }
        _ => pattern,
    }
}

/// The pattern of a signal after a statement for it, where all signals are 0.
#[cycle(after)]
fn after_stmt(stmt: FreeStmt, pattern: u64) -> u64
    ensures { result ≡ after_pieces stmt.entry.signal.0 pattern (taken (shapes stmt.entry.known.now) zeros (designs.stmt stmt.entry.known.now stmt.entry.id.place)) }
{
    let known = stmt.known;
    let id = stmt.id;
    let bound = id.place;
    let signal = stmt.signal;
    match (StmtOf { known, id }).stmt() {
        Stmt::Assign { target, value, .. } => {
            let value = FreeOf { known, id: *value };
            let target = OwnTarget {
                known,
                id: *target,
                signal,
            };
            after_assign(target, pattern, value.value())
        }
        Stmt::If { branches, rest, .. } => {
            if let [branch, ..] = branches.as_slice() {
                let cond = FreeOf {
                    known,
                    id: branch.cond,
                };
                if cond.value() != 0 {
                    let then_ = FreeBlock {
                        known,
                        ids: branch.body.as_slice(),
                        bound,
                        signal,
                    };
                    return after_block(then_, pattern);
                }
            }
            let else_ = FreeBlock {
                known,
                ids: rest.as_slice(),
                bound,
                signal,
            };
            after_block(else_, pattern)
        }
        Stmt::Case { .. } => pattern,
    }
}

/// The pattern of a signal after statements for it, where all signals are 0.
#[cycle(after)]
fn after_block(stmts: FreeBlock, pattern: u64) -> u64
    ensures { result ≡ after_pieces stmts.entry.signal.0 pattern (taken_block (shapes stmts.entry.known.now) zeros (block stmts.entry.known.now stmts.entry.ids.now)) }
{
    let known = stmts.known;
    let signal = stmts.signal;
    let mut pattern = pattern;
    for id in stmts.ids {
        let stmt = FreeStmt {
            known,
            id: *id,
            signal,
        };
        pattern = after_stmt(stmt, pattern);
    }
    pattern
}

/// The line of the first assignment in a statement for a signal.
#[cycle(first)]
fn first_line(stmt: OwnStmt) -> u32
    ensures { first_line (lines_at stmt.entry.known.now stmt.entry.signal.0 stmt.entry.id.place) ≡ Some result }
{
    let known = stmt.known;
    let id = stmt.id;
    let bound = id.place;
    let signal = stmt.signal;
    match (StmtOf { known, id }).stmt() {
        Stmt::Assign { line, .. } | Stmt::Case { line, .. } => *line,
        Stmt::If { branches, rest, .. } => {
            if let [branch, ..] = branches.as_slice()
                && !branch.body.is_empty()
            {
                let then_ = OwnBlock {
                    known,
                    ids: branch.body.as_slice(),
                    bound,
                    signal,
                };
                return first_line_in(then_);
            }
            let else_ = OwnBlock {
                known,
                ids: rest.as_slice(),
                bound,
                signal,
            };
            first_line_in(else_)
        }
    }
}

/// The line of the first assignment in statements for a signal.
#[cycle(first)]
fn first_line_in(stmts: OwnBlock) -> u32
    requires { 0 < length stmts.ids.now }
    ensures { first_line (lines stmts.entry.known.now stmts.entry.signal.0 stmts.entry.ids.now) ≡ Some result }
{
    let known = stmts.known;
    let signal = stmts.signal;
    let ids = stmts.ids;
    let first = OwnStmt {
        known,
        id: ids[0],
        signal,
    };
    first_line(first)
}

/// What statements for a signal give it, and the first line of them, where they read nothing.
pub(crate) fn fold_of(stmts: OwnBlock) -> Option<Folded>
    requires { stmts.signal.0 < length stmts.known.now.signals }
    ensures number { chosen stmts.entry.known.now stmts.entry.signal.0 result (block stmts.entry.known.now stmts.entry.ids.now) ≡ folded_in stmts.entry.known.now stmts.entry.signal.0 (block stmts.entry.known.now stmts.entry.ids.now) }
    ensures line { chosen_lines result (lines stmts.entry.known.now stmts.entry.signal.0 stmts.entry.ids.now) ≡ folded_lines (block_reads_none (block stmts.entry.known.now stmts.entry.ids.now)) (lines stmts.entry.known.now stmts.entry.signal.0 stmts.entry.ids.now) }
{
    let known = stmts.known;
    let ids = stmts.ids;
    let bound = stmts.bound;
    if ids.is_empty() || !block_reads_none(BlockOf { known, ids, bound }) {
        return None;
    }
    let signal = SignalOf {
        known,
        id: stmts.signal,
    };
    let own = signal.signal();
    let pattern = lay(0, 0, own.shape.bits, own.reset);
    let free = FreeBlock {
        known,
        ids,
        bound,
        signal: stmts.signal,
    };
    let after = after_block(free, pattern);
    Some(Folded {
        value: wrap(after as i128, own.shape),
        line: first_line_in(stmts),
    })
}
