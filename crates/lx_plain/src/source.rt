//! A design whose statements are to be lowered, after its expressions.

ghost use Rattle.std.specs.Prelude.{◌≡◌, ℕ, ◌<◌, ◌≤◌, length, IsTrue};
ghost use Rattle.lx_fhdl.specs.Designs.{shapes, term};
ghost use Rattle.lx_fhdl.specs.Keeping.{Keeps};
ghost use Rattle.lx_lowering.specs.Terms.{lower_term};

use crate::operands::Operand;
use crate::plain::PlainDraft;
use lx_fhdl::{Design, ExprId, SigId, Stmt, StmtId, Target, TargetId};
use lx_num::Shape;
use std::marker::Model;

/// A design that is read, and where its first expressions stand in the draft, lowered.
#[derive(Drop)]
pub struct Source<'a> {
    design: &'a Design,
    /// The shape of each expression.
    shapes: &'a [Shape],
    /// The new places of the first expressions.
    places: &'a [ExprId],
}

impl<'a> Model for Source<'a> {
    ghost use Rattle.lx_plain.specs.Sources.{Read};

    ghost Value = { Read };

    ghost use Rattle.lx_plain.specs.Sources.{IsRead};

    ghost view = { λ s. record { design = s.design.now; shapes = s.shapes.now; places = s.places.now } };

    ghost invariant = { λ s. IsRead (record { design = s.design.now; shapes = s.shapes.now; places = s.places.now }) };
}

impl<'a> Source<'a> {
    ghost use Rattle.lx_circuit.specs.Statements.{target_bits};
    ghost use Rattle.lx_fhdl.specs.Below.{stmt_below, target_below};
    ghost use Rattle.lx_fhdl.specs.Designs.{stmt, target};
    ghost use Rattle.lx_fhdl.specs.Keeping.{StmtStands, TargetStands};
    ghost use Rattle.lx_plain.specs.Lines.{expr_shape, lines_at};
    ghost use Rattle.lx_plain.specs.Operands.{HasShape};
    ghost use Rattle.lx_plain.specs.Owned.{node_lines_of, target_of, tree_of};
    ghost use Rattle.lx_plain.specs.Sources.{IsLowered, IsRead};

    /// The design with these shapes and places of its expressions.
    pub fn new(design: &'a Design, shapes: &'a [Shape], places: &'a [ExprId]) -> Source<'a>
        requires { IsRead (record { design = design.now; shapes = shapes.now; places = places.now }) }
        ensures { result ≡ record { design = design.now; shapes = shapes.now; places = places.now } }
    {
        Source {
            design,
            shapes,
            places,
        }
    }

    /// The design.
    pub fn design(&self) -> &'a Design
        ensures is { result.now ≡ self.now.design }
        ensures keeps { IsRead self.now }
    {
        let design = self.design;
        design
    }

    /// The number of its statements.
    pub fn stmts(&self) -> usize
        ensures { result ≡ length self.now.design.stmts }
    {
        let design = self.design;
        design.stmts.len()
    }

    /// The new places of its first expressions.
    pub fn places(&self) -> &'a [ExprId]
        ensures { result.now ≡ self.now.places }
    {
        let places = self.places;
        places
    }

    /// An expression of the design at its new place.
    pub fn lowered(&self, draft: &PlainDraft, id: ExprId) -> Operand
        requires lowered { IsLowered self.now draft.now }
        requires place { id.place < length self.now.places }
        ensures shape { HasShape draft.now result }
        ensures same { result.shape ≡ expr_shape self.now.design id.place }
        ensures tree { term draft.now result.id.place ≡ lower_term (shapes self.now.design) (term self.now.design id.place) }
    {
        let _draft = draft;
        let places = self.places;
        let shapes = self.shapes;
        Operand {
            id: places[id.place],
            shape: shapes[id.place],
        }
    }

    /// The target at a place of the design.
    pub fn target(&self, id: TargetId) -> &'a Target
        requires { id.place < length self.now.design.targets }
        ensures below { IsTrue (target_below result.now id.place) }
        ensures stands { TargetStands (shapes self.now.design) (length self.now.design.signals) self.now.design.exprs result.now }
        ensures tree { target self.now.design id.place ≡ target_of self.now.design result.now }
        ensures most { target_bits (shapes self.now.design) (target_of self.now.design result.now) ≤ 127 }
    {
        let design = self.design;
        design.targets.get(id)
    }

    /// The statement at a place of the design.
    pub fn stmt(&self, id: StmtId) -> &'a Stmt
        requires { id.place < length self.now.design.stmts }
        ensures below { IsTrue (stmt_below result.now id.place) }
        ensures stands { StmtStands (length self.now.design.exprs) (length self.now.design.targets) result.now }
        ensures tree { stmt self.now.design id.place ≡ tree_of self.now.design result.now }
        ensures lines { (x : ℕ) → lines_at self.now.design x id.place ≡ node_lines_of self.now.design x result.now }
    {
        let design = self.design;
        design.stmts.get(id)
    }

    /// The bits of a signal of the design.
    pub fn signal_bits(&self, x: SigId) -> u8
        requires { x.0 < length self.now.design.signals }
        ensures { result ≡ (shapes self.now.design x.0).bits }
    {
        let design = self.design;
        design.signals.at(x.0).shape.bits
    }
}
