//! Assigns (IEEE 1364-2005, "Continuous assignments").

ghost use Rattle.std.specs.Prelude.{[], ◌++◌, length, IfOk, IsTrue, OnOk};
ghost use Rattle.lx_vtree.specs.Modules.{are_assigns_placed};
ghost use Rattle.lx_emission.specs.Emission.{node_assign};
ghost use Rattle.lx_emission.specs.Signals.{signal_assign};
ghost use Rattle.lx_nets.specs.Lines.{PutAssigns};
ghost use Rattle.lx_nets.specs.Plans.{assigns_in, nodes_in};

use crate::exprs::put_node;
use lx_arena::Id;
use lx_fhdl::SigId;
use lx_sheet::names::node_name;
use lx_sheet::operands::put_operand;
use lx_sheet::resets::put_reset;
use lx_sheet::tables::has_net;
use lx_sheet::{Drive, NodeOf, Sheet, SignalOf};
use lx_text::{List, NoMemory};
use lx_vtree::{Assign, Nodes};
use std::alloc::Global;
use std::marker::PhantomData;

// Adds the assign of an operator or slice to its net.
fn put_node_assign(
    alloc: Global,
    nodes: &mut Nodes,
    assigns: &mut List<Assign>,
    node: NodeOf,
) -> Result<(), NoMemory>
    requires placed { IsTrue (are_assigns_placed (length nodes.old.exprs) assigns.old) }
    ensures { OnOk result (PutAssigns nodes.old nodes.new assigns.old assigns.new (node_assign node.entry.sheet.now.design node.entry.sheet.now.names node.entry.id.place)) }
{
    if !has_net(node.expr()) {
        return Ok(());
    }
    let name = node_name(alloc, node.number())?;
    let value = put_node(alloc, nodes, node)?;
    assigns.push(Assign { name, value })
}

// Adds the assign to a signal's net, where no block drives it.
fn put_signal_assign(
    alloc: Global,
    nodes: &mut Nodes,
    assigns: &mut List<Assign>,
    x: SignalOf,
) -> Result<(), NoMemory>
    requires placed { IsTrue (are_assigns_placed (length nodes.old.exprs) assigns.old) }
    ensures { OnOk result (PutAssigns nodes.old nodes.new assigns.old assigns.new (signal_assign x.entry.sheet.now.design x.entry.sheet.now.names x.entry.id.0)) }
{
    match x.drive() {
        Drive::Input | Drive::CombBlock(_) | Drive::Sync { .. } => Ok(()),
        Drive::Undriven => {
            let name = x.name(alloc)?;
            let value = put_reset(nodes, x)?;
            assigns.push(Assign { name, value })
        }
        Drive::CombAssign(of) => {
            let name = x.name(alloc)?;
            let value = put_operand(alloc, nodes, x.sheet, *of)?;
            assigns.push(Assign { name, value })
        }
    }
}

// Adds the assigns of all operators and slices.
fn put_nodes(
    alloc: Global,
    nodes: &mut Nodes,
    sheet: &Sheet,
    assigns: &mut List<Assign>,
) -> Result<(), NoMemory>
    requires { IsTrue (are_assigns_placed (length nodes.old.exprs) assigns.old) }
    ensures { OnOk result (PutAssigns nodes.old nodes.new assigns.old assigns.new (nodes_in sheet.now)) }
{
    for place in 0..sheet.design.exprs.len() {
        let id = Id {
            place,
            of: PhantomData,
        };
        put_node_assign(alloc, nodes, assigns, NodeOf::new(&*sheet, id))?;
    }
    Ok(())
}

// Adds the assigns of all signals that no block drives.
fn put_signals(
    alloc: Global,
    nodes: &mut Nodes,
    sheet: &Sheet,
    assigns: &mut List<Assign>,
) -> Result<(), NoMemory>
    requires { IsTrue (are_assigns_placed (length nodes.old.exprs) assigns.old) }
    ensures { OnOk result (PutAssigns nodes.old nodes.new assigns.old assigns.new (assigns_in sheet.now)) }
{
    for x in 0..sheet.design.signals.len() {
        put_signal_assign(alloc, nodes, assigns, SignalOf::new(&*sheet, SigId(x)))?;
    }
    Ok(())
}

/// The assigns of a module: those of operators and slices, and then those of the signals that no block drives.
pub fn assigns(alloc: Global, nodes: &mut Nodes, sheet: &Sheet) -> Result<List<Assign>, NoMemory>
    ensures { IfOk result (λ list. PutAssigns nodes.old nodes.new [] list (nodes_in sheet.now ++ assigns_in sheet.now)) }
{
    let mut assigns = List::new(alloc);
    put_nodes(alloc, nodes, sheet, &mut assigns)?;
    put_signals(alloc, nodes, sheet, &mut assigns)?;
    Ok(assigns)
}
