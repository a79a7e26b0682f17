//! The shapes of all expressions of a design.

ghost use Rattle.std.specs.Prelude.{◌≡◌, IfOk};
ghost use Rattle.lx_fhdl.specs.Drafts.{DraftKeeps};
ghost use Rattle.lx_fhdl.specs.Nodes.{node_shape};
ghost use Rattle.lx_width.specs.Shapes.{AreShapes, IsSoundNode};
ghost use Rattle.lx_width.specs.Width.{signal_shape};

use crate::node_shape;
use lx_fhdl::{Design, Expr, Signal};
use lx_num::Shape;
use lx_text::{List, NoMemory};
use std::alloc::Global;

/// The shape of a node that has no fault.
fn sound_shape(node: &Expr, shapes: &[Shape], signals: &[Signal]) -> Shape
    requires { IsSoundNode signals.now shapes.now node.now }
    ensures { result ≡ node_shape (signal_shape signals.now) shapes.now node.now }
{
    match node_shape(node, shapes, signals) {
        Ok(shape) => shape,
        Err(_) => unreachable!(),
    }
}

/// The shapes of all expressions.
pub fn expr_shapes(alloc: Global, design: &Design) -> Result<List<Shape>, NoMemory>
    requires { DraftKeeps design.now }
    ensures { IfOk result (λ hs. AreShapes design.now hs) }
{
    let signals = design.signals.as_slice();
    let mut shapes = List::new(alloc);
    for node in design.exprs.as_slice() {
        let shape = sound_shape(node, shapes.as_slice(), signals);
        shapes.push(shape)?;
    }
    Ok(shapes)
}
