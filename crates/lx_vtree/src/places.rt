//! Whether the places that parts name are places of their nodes.

ghost use Rattle.std.specs.Prelude.{◌≡◌, ◌↔◌, IsTrue};
ghost use Rattle.lx_vtree.specs.Modules.{ArePlaced, are_assigns_placed, are_blocks_placed, are_parts_placed};

use crate::modules::{Always, Assign, Parts};
use crate::nodes::stmts_below;

/// Whether every place that the parts name is one of their nodes: what the text of a module asks of its places.
pub fn are_placed(parts: &Parts) -> bool
    ensures { IsTrue result ↔ ArePlaced parts.now }
{
    places_hold(parts)
}

fn places_hold(parts: &Parts) -> bool
    ensures { result ≡ are_parts_placed parts.now }
{
    assigns_placed(parts.assigns.as_slice(), parts.nodes.expr_count())
        && blocks_placed(parts.always.as_slice(), parts.nodes.stmt_count())
}

fn assigns_placed(assigns: &[Assign], n: usize) -> bool
    ensures { result ≡ are_assigns_placed n assigns.now }
{
    for assign in assigns {
        if assign.value.place >= n {
            return false;
        }
    }
    true
}

fn blocks_placed(blocks: &[Always], n: usize) -> bool
    ensures { result ≡ are_blocks_placed n blocks.now }
{
    for block in blocks {
        if !stmts_below(block.body.as_slice(), n) {
            return false;
        }
    }
    true
}
