//! Always blocks (IEEE 1364-2005, "Procedural blocks").

ghost use Rattle.std.specs.Prelude.{[], ◌++◌, length, IfOk, IsTrue, OnOk};
ghost use Rattle.lx_vtree.specs.Modules.{are_blocks_placed};
ghost use Rattle.lx_emission.specs.Signals.{signal_always};
ghost use Rattle.lx_blocks.specs.Lines.{PutAlways, all_signals_in};
ghost use Rattle.lx_blocks.specs.Writes.{all_writes_in};

use crate::blocks::{put_clocked, put_combined};
use crate::writes::put_memories;
use lx_fhdl::SigId;
use lx_sheet::names::clock_name;
use lx_sheet::{Drive, Sheet, SignalOf};
use lx_text::{List, NoMemory};
use lx_vtree::{Always, Nodes};
use std::alloc::Global;

// Adds the block that drives a signal's net, where one does.
fn put_signal(
    alloc: Global,
    nodes: &mut Nodes,
    blocks: &mut List<Always>,
    x: SignalOf,
) -> Result<(), NoMemory>
    requires blocks { IsTrue (are_blocks_placed (length nodes.old.stmts) blocks.old) }
    ensures { OnOk result (PutAlways nodes.old nodes.new blocks.old blocks.new (signal_always x.entry.sheet.now.design x.entry.sheet.now.names x.entry.id.0)) }
{
    let sheet = x.sheet;
    match x.drive() {
        Drive::Input | Drive::Undriven | Drive::CombAssign(_) => Ok(()),
        Drive::CombBlock(ids) => {
            let body = put_combined(alloc, nodes, x, ids.as_slice())?;
            blocks.push(Always { clock: None, body })
        }
        Drive::Sync { domain, body: ids } => {
            let clock = clock_name(alloc, sheet.design.domains.at(*domain))?;
            let body = put_clocked(alloc, nodes, x, *domain, ids.as_slice())?;
            let clock = Some(clock);
            blocks.push(Always { clock, body })
        }
    }
}

// Adds the blocks that drive signals' nets, in the order of the signals.
fn put_signals(
    alloc: Global,
    nodes: &mut Nodes,
    sheet: &Sheet,
    blocks: &mut List<Always>,
) -> Result<(), NoMemory>
    requires { IsTrue (are_blocks_placed (length nodes.old.stmts) blocks.old) }
    ensures { OnOk result (PutAlways nodes.old nodes.new blocks.old blocks.new (all_signals_in sheet.now)) }
{
    for x in 0..sheet.design.signals.len() {
        put_signal(alloc, nodes, blocks, SignalOf::new(&*sheet, SigId(x)))?;
    }
    Ok(())
}

/// The always blocks of a module: those of the signals with statements, in the order of the signals, and then those of
/// the memories with writers.
pub fn always(alloc: Global, nodes: &mut Nodes, sheet: &Sheet) -> Result<List<Always>, NoMemory>
    ensures { IfOk result (λ list. PutAlways nodes.old nodes.new [] list (all_signals_in sheet.now ++ all_writes_in sheet.now)) }
{
    let mut blocks = List::new(alloc);
    put_signals(alloc, nodes, sheet, &mut blocks)?;
    put_memories(alloc, nodes, sheet, &mut blocks)?;
    Ok(blocks)
}
