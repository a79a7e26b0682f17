//! Expressions of a sheet's design.

ghost use Rattle.std.specs.Prelude.{◌≡◌, ◌<◌, Some, length, slice_get, IsTrue};
ghost use Rattle.lx_fhdl.specs.Below.{expr_below};
ghost use Rattle.lx_emission.specs.Naming.{nets_before};
ghost use Rattle.lx_emission.specs.Nodes as nodes;

use crate::tables::Sheet;
use lx_fhdl::{Expr, ExprId};
use lx_num::Shape;

/// An expression of a sheet's design.
#[derive(Clone, Copy)]
pub struct NodeOf<'a> {
    pub sheet: &'a Sheet<'a>,
    pub id: ExprId,
    pub ghost there: { id.place < length sheet.now.design.exprs },
}

impl<'a> NodeOf<'a> {
    /// The expression at this place.
    pub fn new(sheet: &'a Sheet<'a>, id: ExprId) -> NodeOf<'a>
        requires { id.place < length sheet.now.design.exprs }
        ensures sheet { result.sheet.now ≡ sheet.now }
        ensures id { result.id ≡ id }
    {
        NodeOf { sheet, id }
    }

    /// The node itself.
    pub fn expr(self) -> &'a Expr
        ensures item { slice_get self.entry.sheet.now.design.exprs self.entry.id.place ≡ Some result.now }
        ensures lower { IsTrue (expr_below result.now self.entry.id.place) }
    {
        let sheet = self.sheet;
        sheet.design.exprs.get(self.id)
    }

    /// Its shape.
    #[tactic(auto, unfolding(lx_emission::specs::Nodes::node_shape))]
    pub fn shape(self) -> Shape
        ensures { result ≡ nodes.node_shape self.entry.sheet.now.design self.entry.id.place }
    {
        let sheet = self.sheet;
        *sheet.tables.shapes.at(self.id.place)
    }

    /// The number of its net.
    pub fn number(self) -> usize
        ensures { result ≡ nets_before self.entry.sheet.now.design.exprs self.entry.id.place }
    {
        let sheet = self.sheet;
        *sheet.tables.numbers.at(self.id.place)
    }
}
