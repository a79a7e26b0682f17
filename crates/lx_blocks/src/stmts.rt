//! Statements (IEEE 1364-2005, "Procedural assignments" and "Conditional statement").

ghost use Rattle.std.specs.Prelude.{◌≡◌, ◌<◌, ◌≤◌, Some, length, slice_get, IfOk, IsTrue};
ghost use Rattle.lx_vtext.specs.Tree as tree;
ghost use Rattle.lx_vtree.specs.Growth.{PutStmt};
ghost use Rattle.lx_vtree.specs.Stmts.{are_stmts_below};
ghost use Rattle.lx_fhdl.specs.Designs as designs;
ghost use Rattle.lx_fhdl.specs.Lowered.{IsPlain};
ghost use Rattle.lx_emission.specs.Texts.{covers, block_onto, else_text};
ghost use Rattle.lx_blocks.specs.Bodies.{IsAssignment, IsBody, IsChoice};
ghost use Rattle.lx_blocks.specs.Plans.{assign_in, stmt_in, target_in, when_in};
ghost use Rattle.lx_sheet.specs.Drives.{IsPlainTarget};
ghost use Rattle.lx_blocks.specs.Puts.{IsTarget, PutBlock, PutElse, PutStmts, texts_of};

use lx_fhdl::{Branch, ExprId, Stmt, StmtId, Target, TargetId};
use lx_sheet::operands::put_operand;
use lx_sheet::{Sheet, SignalOf};
use lx_text::{List, NoMemory};
use lx_vtree::{Nodes, StmtId as VStmtId, VStmt, VTarget};
use std::alloc::Global;

// Whether the bits from `low` on are all of a signal's.
fn covers(bits: u8, low: u8, len: u8) -> bool
    ensures { result ≡ covers bits low len }
{
    low == 0 && len == bits
}

// Some bits of a signal; a slice that covers it is the whole.
fn part(alloc: Global, x: SignalOf, low: u8, len: u8) -> Result<VTarget, NoMemory>
    requires { 1 ≤ len }
    ensures { IfOk result (λ t. IsTarget t (target_in x.entry.sheet.now (Some (Target.Part x.entry.id low len)))) }
{
    let name = x.name(alloc)?;
    if covers(x.shape().bits, low, len) {
        return Ok(VTarget::Whole(name));
    }
    let lo = low as u64;
    let hi = lo + len as u64 - 1;
    Ok(VTarget::Part { name, hi, lo })
}

/// What an assignment to a signal or to some of its bits writes.
pub fn make_target(alloc: Global, sheet: &Sheet, id: TargetId) -> Result<VTarget, NoMemory>
    requires place { id.place < length sheet.now.design.targets }
    requires plain { IsPlainTarget (designs.target sheet.now.design id.place) }
    ensures { IfOk result (λ t. IsTarget t (target_in sheet.now (slice_get sheet.now.design.targets id.place))) }
{
    match sheet.design.targets.get(id) {
        Target::Whole(signal) => {
            let signal = SignalOf::new(&*sheet, *signal);
            Ok(VTarget::Whole(signal.name(alloc)?))
        }
        Target::Part { signal, low, len } => {
            part(alloc, SignalOf::new(&*sheet, *signal), *low, *len)
        }
        Target::Cat(_) | Target::Pick { .. } => unreachable!(),
    }
}

// An assignment.
fn put_assign(
    alloc: Global,
    nodes: &mut Nodes,
    sheet: &Sheet,
    blocking: bool,
    target: TargetId,
    value: ExprId,
) -> Result<VStmtId, NoMemory>
    requires { IsAssignment sheet.now target value }
    ensures { IfOk result (λ i. PutStmt nodes.old nodes.new i.place (assign_in sheet.now blocking target value)) }
{
    let target = make_target(alloc, sheet, target)?;
    let value = put_operand(alloc, nodes, sheet, value)?;
    let node = VStmt::Assign {
        target,
        blocking,
        value,
    };
    nodes.add_stmt(node)
}

// `if (cond) begin`, the branch, and the rest behind an `else`, where it has statements. All are lower than `bound`.
#[cycle(put)]
fn put_when(
    alloc: Global,
    nodes: &mut Nodes,
    sheet: &Sheet,
    blocking: bool,
    branch: &Branch,
    rest: &[StmtId],
    bound: usize,
) -> Result<VStmtId, NoMemory>
    requires { IsChoice sheet.now bound branch.now rest.now }
    ensures { IfOk result (λ i. PutStmt nodes.old nodes.new i.place (when_in sheet.now blocking branch.now rest.now)) }
{
    let so = put_block(alloc, nodes, sheet, blocking, branch.body.as_slice(), bound)?;
    let other = put_else(alloc, nodes, sheet, blocking, rest, bound)?;
    let cond = put_operand(alloc, nodes, sheet, branch.cond)?;
    nodes.add_stmt(VStmt::When { cond, so, other })
}

/// Adds a statement for one signal: with `=` where it acts at once, else with `<=`.
#[cycle(put)]
pub fn put_stmt(
    alloc: Global,
    nodes: &mut Nodes,
    sheet: &Sheet,
    blocking: bool,
    id: StmtId,
) -> Result<VStmtId, NoMemory>
    requires place { id.place < length sheet.now.design.stmts }
    requires plain { IsPlain (designs.stmt sheet.now.design id.place) }
    ensures { IfOk result (λ i. PutStmt nodes.old nodes.new i.place (stmt_in sheet.now blocking id.place)) }
{
    match sheet.design.stmts.get(id) {
        Stmt::Assign { target, value, .. } => {
            put_assign(alloc, nodes, sheet, blocking, *target, *value)
        }
        Stmt::If { branches, rest, .. } => {
            let branch = branches.at(0);
            let rest = rest.as_slice();
            put_when(alloc, nodes, sheet, blocking, branch, rest, id.place)
        }
        Stmt::Case { .. } => unreachable!(),
    }
}

// The statements behind an `else`, where there are some. All are lower than `bound`.
#[cycle(put)]
fn put_else(
    alloc: Global,
    nodes: &mut Nodes,
    sheet: &Sheet,
    blocking: bool,
    ids: &[StmtId],
    bound: usize,
) -> Result<Option<List<VStmtId>>, NoMemory>
    requires { IsBody sheet.now bound ids.now }
    ensures { IfOk result (λ list. PutElse nodes.old nodes.new list (else_text (stmt_in sheet.now blocking) ids.now)) }
{
    if ids.is_empty() {
        return Ok(None);
    }
    let list = put_block(alloc, nodes, sheet, blocking, ids, bound)?;
    Ok(Some(list))
}

/// Adds the statements of a block, each for one signal and lower than `bound`.
#[cycle(put)]
pub fn put_block(
    alloc: Global,
    nodes: &mut Nodes,
    sheet: &Sheet,
    blocking: bool,
    ids: &[StmtId],
    bound: usize,
) -> Result<List<VStmtId>, NoMemory>
    requires { IsBody sheet.now bound ids.now }
    ensures { IfOk result (λ list. PutBlock nodes.old nodes.new list (block_onto (stmt_in sheet.now blocking) ids.now tree.EndBlock)) }
{
    let list = List::new(alloc);
    put_stmts(alloc, nodes, sheet, blocking, ids, bound, list)
}

/// Adds statements, each for one signal and lower than `bound`, at the end of a block's list.
#[cycle(put)]
pub fn put_stmts(
    alloc: Global,
    nodes: &mut Nodes,
    sheet: &Sheet,
    blocking: bool,
    ids: &[StmtId],
    bound: usize,
    list: List<VStmtId>,
) -> Result<List<VStmtId>, NoMemory>
    requires body { IsBody sheet.now bound ids.now }
    requires there { IsTrue (are_stmts_below list (length nodes.old.stmts)) }
    ensures { IfOk result (λ after. PutStmts nodes.old nodes.new list after (texts_of (stmt_in sheet.now blocking) ids.now)) }
{
    let mut after = list;
    for id in ids {
        let stmt = put_stmt(alloc, nodes, sheet, blocking, *id)?;
        after.push(stmt)?;
    }
    Ok(after)
}
