//! Reset values.

ghost use Rattle.std.specs.Prelude.{◌≡◌, IfOk};
ghost use Rattle.lx_vtext.specs.Tree as tree;
ghost use Rattle.lx_vtree.specs.Modules as modules;
ghost use Rattle.lx_vtree.specs.Growth.{PutExpr};
ghost use Rattle.lx_emission.specs.Signals as signals;
ghost use Rattle.lx_sheet.specs.Plans.{reset_in};

use crate::operands::{constant, put_literal};
use crate::signals::SignalOf;
use lx_text::NoMemory;
use lx_vtree::{ExprId as VExprId, Literal, Nodes};

/// The reset value of a signal, as a literal of its shape.
pub fn reset_literal(x: SignalOf) -> Literal
    ensures text { tree.Literal result.bits result.signed result.value ≡ reset_in x.entry.sheet.now x.entry.id.0 }
    ensures value { modules.literal_of result ≡ signals.literal_of (signals.shape_of_signal x.entry.sheet.now.design x.entry.id.0) (signals.reset_of_signal x.entry.sheet.now.design x.entry.id.0) }
{
    let sheet = x.sheet;
    let signal = sheet.design.signals.at(x.id.0);
    constant(signal.reset, signal.shape.bits as u32, signal.shape.signed)
}

/// Adds the reset value of a signal.
pub fn put_reset(nodes: &mut Nodes, x: SignalOf) -> Result<VExprId, NoMemory>
    ensures { IfOk result (λ i. PutExpr nodes.old nodes.new i.place (reset_in x.entry.sheet.now x.entry.id.0)) }
{
    let literal = reset_literal(x);
    put_literal(nodes, literal)
}
