//! Nets: wires, and registers with their reset values (IEEE 1364-2005, "Net and variable declarations").

ghost use Rattle.std.specs.Prelude.{◌≡◌, option_map, IfOk};
ghost use Rattle.lx_vtree.specs.Modules.{literal_of, net_of};
ghost use Rattle.lx_emission.specs.Emission.{wire};
ghost use Rattle.lx_emission.specs.Signals.{init_of, reset_of_signal, shape_of_signal, signal_net};
ghost use Rattle.lx_sheet.specs.Drives.{drive_of};
ghost use Rattle.lx_nets.specs.Plans.{node_wire_in};

use lx_num::Shape;
use lx_sheet::names::node_name;
use lx_sheet::resets::reset_literal;
use lx_sheet::{Drive, NodeOf, SignalOf};
use lx_text::{NoMemory, Word};
use lx_vtree::{Literal, Net};
use std::alloc::Global;

// The first value of a signal's net, where a block drives it.
fn init(drive: &Drive, x: SignalOf) -> Option<Literal>
    ensures { option_map literal_of result ≡ init_of (shape_of_signal x.entry.sheet.now.design x.entry.id.0) (reset_of_signal x.entry.sheet.now.design x.entry.id.0) (drive_of drive.now) }
{
    match drive {
        Drive::Input | Drive::Undriven | Drive::CombAssign(_) => None,
        Drive::CombBlock(_) | Drive::Sync { .. } => Some(reset_literal(x)),
    }
}

/// The net of a signal: a register where a block drives it.
pub fn signal_net(alloc: Global, x: SignalOf) -> Result<Net, NoMemory>
    ensures { IfOk result (λ net. net_of net ≡ signal_net x.entry.sheet.now.design x.entry.sheet.now.names x.entry.id.0) }
{
    let shape = x.shape();
    let name = x.name(alloc)?;
    Ok(Net {
        signed: shape.signed,
        bits: shape.bits as u64,
        name,
        init: init(x.drive(), x),
    })
}

/// A wire.
pub fn wire(shape: Shape, name: Word) -> Net
    ensures { net_of result ≡ wire shape.signed shape.bits name }
{
    Net {
        signed: shape.signed,
        bits: shape.bits as u64,
        name,
        init: None,
    }
}

/// The wire of an operator or slice.
pub fn node_wire(alloc: Global, node: NodeOf) -> Result<Net, NoMemory>
    ensures { IfOk result (λ net. net_of net ≡ node_wire_in node.entry.sheet.now node.entry.id.place) }
{
    let name = node_name(alloc, node.number())?;
    Ok(wire(node.shape(), name))
}
