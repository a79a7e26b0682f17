//! The blocks that drive signals (IEEE 1364-2005, "Structured procedures").

ghost use Rattle.std.specs.Prelude.{◌≡◌, ◌<◌, length, IfOk};
ghost use Rattle.lx_vtree.specs.Growth.{PutStmt};
ghost use Rattle.lx_emission.specs.Signals.{comb_body, sync_body};
ghost use Rattle.lx_blocks.specs.Bodies.{IsBody};
ghost use Rattle.lx_blocks.specs.Plans.{reset_assign_in, reset_block_in};
ghost use Rattle.lx_blocks.specs.Puts.{PutBlock};
ghost use Rattle.lx_blocks.specs.Resets.{block_by, reset_stmt};

use crate::stmts::put_stmts;
use lx_fhdl::StmtId;
use lx_sheet::SignalOf;
use lx_sheet::operands::put_net;
use lx_sheet::resets::put_reset;
use lx_text::{List, NoMemory, Word};
use lx_vtree::{Nodes, StmtId as VStmtId, VStmt, VTarget};
use std::alloc::Global;

// The assignment of its reset value to a signal.
fn put_reset_assign(
    alloc: Global,
    nodes: &mut Nodes,
    x: SignalOf,
    blocking: bool,
) -> Result<VStmtId, NoMemory>
    ensures { IfOk result (λ i. PutStmt nodes.old nodes.new i.place (reset_assign_in x.entry.sheet.now blocking x.entry.id.0)) }
{
    let target = VTarget::Whole(x.name(alloc)?);
    let value = put_reset(nodes, x)?;
    let node = VStmt::Assign {
        target,
        blocking,
        value,
    };
    nodes.add_stmt(node)
}

// `if (reset) begin`, the reset value, `end`.
fn put_reset_stmt(
    alloc: Global,
    nodes: &mut Nodes,
    x: SignalOf,
    reset: Word,
) -> Result<VStmtId, NoMemory>
    ensures { IfOk result (λ i. PutStmt nodes.old nodes.new i.place (reset_stmt x.entry.sheet.now x.entry.id.0 reset)) }
{
    let assign = put_reset_assign(alloc, nodes, x, false)?;
    let so = List::of_one(alloc, assign)?;
    let cond = put_net(nodes, reset)?;
    let other = None;
    nodes.add_stmt(VStmt::When { cond, so, other })
}

/// Adds the statements of a block of `always @(*)`: first the reset value, then the statements.
pub fn put_combined(
    alloc: Global,
    nodes: &mut Nodes,
    x: SignalOf,
    body: &[StmtId],
) -> Result<List<VStmtId>, NoMemory>
    requires { IsBody x.sheet.now (length x.sheet.now.design.stmts) body.now }
    ensures { IfOk result (λ list. PutBlock nodes.old nodes.new list (comb_body x.entry.sheet.now.design x.entry.sheet.now.names x.entry.id.0 body.now)) }
{
    let sheet = x.sheet;
    let bound = sheet.design.stmts.len();
    let first = put_reset_assign(alloc, nodes, x, true)?;
    let list = List::of_one(alloc, first)?;
    put_stmts(alloc, nodes, sheet, true, body, bound, list)
}

// The name of a domain's reset, where the signal takes part in it.
fn reset_name(alloc: Global, x: SignalOf, domain: usize) -> Result<Option<Word>, NoMemory>
    requires { domain < length x.sheet.now.design.domains }
    ensures { IfOk result (λ name. block_by x.entry.sheet.now x.entry.id.0 name ≡ reset_block_in x.entry.sheet.now x.entry.id.0 domain) }
{
    let sheet = x.sheet;
    if sheet.design.signals.at(x.id.0).reset_less {
        return Ok(None);
    }
    match sheet.design.domains.at(domain).reset {
        Some(reset) => Ok(Some(SignalOf::new(&*sheet, reset).name(alloc)?)),
        None => Ok(None),
    }
}

/// Adds the statements of a block at the rise of a domain's clock: the statements, then the reset.
pub fn put_clocked(
    alloc: Global,
    nodes: &mut Nodes,
    x: SignalOf,
    domain: usize,
    body: &[StmtId],
) -> Result<List<VStmtId>, NoMemory>
    requires domain { domain < length x.sheet.now.design.domains }
    requires body { IsBody x.sheet.now (length x.sheet.now.design.stmts) body.now }
    ensures { IfOk result (λ list. PutBlock nodes.old nodes.new list (sync_body x.entry.sheet.now.design x.entry.sheet.now.names x.entry.id.0 domain body.now)) }
{
    let sheet = x.sheet;
    let bound = sheet.design.stmts.len();
    let empty = List::new(alloc);
    let mut list = put_stmts(alloc, nodes, sheet, false, body, bound, empty)?;
    let reset = reset_name(alloc, x, domain)?;
    let Some(reset) = reset else {
        return Ok(list);
    };
    let last = put_reset_stmt(alloc, nodes, x, reset)?;
    list.push(last)?;
    Ok(list)
}
