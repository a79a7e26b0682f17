//! The draft, and what it makes.

ghost use Rattle.std.specs.Prelude.{[], ◌≡◌, ◌<◌, not, length, slice_get, IfOk, IsTrue, OnErr, option_copied};
ghost use Rattle.lx_circuit.specs.Shapes.{shape_of};
ghost use Rattle.lx_fhdl.specs.Below.{expr_below};
ghost use Rattle.lx_fhdl.specs.Designs as designs;
ghost use Rattle.lx_fhdl.specs.Designs.{shapes};
ghost use Rattle.lx_fhdl.specs.Drafts.{CanAddExpr, CanAddTarget, DraftKeeps, ExprPut, TargetPut, started};
ghost use Rattle.lx_fhdl.specs.Keeping.{EachOf, IsMemory, IsSignal};
ghost use Rattle.lx_fhdl.specs.Kept as kept;
ghost use Rattle.lx_fhdl.specs.declared.stmts.Target.TheVariants as target;
ghost use Rattle.lx_shaped.specs.Making as making;
ghost use Rattle.lx_shaped.specs.Making.{expr_shape, make_expr, make_memory, make_signal, make_stmt, make_target, shape_made, shape_there, stmt_in, target_in, target_width};

use crate::outcome::Outcome;
use crate::sizes::{most_of_bits, narrow, sum_of_bits};
use crate::standing::{has_parts, names_there, stmt_stands, takes_operands};
use lx_arena::Node;
use lx_fhdl::{
    Design, Domain, Draft, Expr, ExprId, Memory, Port, SigId, Signal, Stmt, StmtId, SyncPart,
    Target, TargetId,
};
use lx_num::Shape;
use lx_parts::{is_memory, is_signal};
use lx_text::{List, NoMemory};
use lx_width::node_shape;
use std::alloc::Global;
use std::marker::Model;

/// A draft of a design that knows the shape of each of its expressions, and the bits of each of its targets. A contract
/// sees the design.
#[derive(Drop)]
pub struct Shaped {
    draft: Draft,
    /// For each expression its shape.
    shapes: List<Shape>,
    /// For each target its bits.
    bits: List<u8>,
}

impl Model for Shaped {
    ghost use Rattle.lx_fhdl.specs.declared.design.Design.{Design};

    ghost Value = { Design };

    ghost use Rattle.lx_shaped.specs.Sizes.{HasSizes};

    ghost view = { λ a. a.draft };

    ghost invariant = { λ a. HasSizes a.draft a.shapes a.bits };
}

impl Shaped {
    /// A draft with nothing in it.
    pub fn new(alloc: Global) -> Shaped
        ensures { result ≡ started [] [] }
    {
        Shaped::start(alloc, List::new(alloc), List::new(alloc))
    }

    /// Adds a signal, unless it can be part of no design.
    pub fn signal(&mut self, signal: Signal) -> Result<Outcome<SigId>, NoMemory>
        ensures ok { IfOk result (λ made. (made, self.new) ≡ make_signal signal self.old) }
        ensures err { OnErr result (self.new ≡ self.old) }
    {
        if !is_signal(&signal) {
            return Ok(Outcome::Misplaced);
        }
        let id = self.draft.push_signal(signal)?;
        Ok(Outcome::Made(id))
    }

    /// Adds a memory, unless it can be part of no design.
    pub fn memory(&mut self, memory: Memory) -> Result<Outcome<usize>, NoMemory>
        ensures ok { IfOk result (λ made. (made, self.new) ≡ make_memory memory self.old) }
        ensures err { OnErr result (self.new ≡ self.old) }
    {
        if !is_memory(&memory) {
            return Ok(Outcome::Misplaced);
        }
        let place = self.draft.push_memory(memory)?;
        Ok(Outcome::Made(place))
    }

    /// A draft with these signals and memories, and nothing else.
    pub fn start(alloc: Global, signals: List<Signal>, memories: List<Memory>) -> Shaped
        requires signals { EachOf IsSignal signals }
        requires memories { EachOf IsMemory memories }
        ensures { result ≡ started signals memories }
    {
        Shaped {
            draft: Draft::start(alloc, signals, memories),
            shapes: List::new(alloc),
            bits: List::new(alloc),
        }
    }

    /// The shape of an expression, where there is one.
    pub fn shape(&self, id: ExprId) -> Option<Shape>
        ensures { result ≡ shape_there self.now id.place }
    {
        self.shapes.get(id.place).copied()
    }

    /// The expression at a place, where there is one.
    pub fn node(&self, id: ExprId) -> Option<&Expr>
        ensures { option_copied result ≡ slice_get self.now.exprs id.place }
    {
        self.draft.design().exprs.as_slice().get(id.place)
    }

    /// The target at a place, where there is one.
    pub fn target_node(&self, id: TargetId) -> Option<&Target>
        ensures { option_copied result ≡ slice_get self.now.targets id.place }
    {
        self.draft.design().targets.as_slice().get(id.place)
    }

    /// The statement at a place, where there is one.
    pub fn stmt_node(&self, id: StmtId) -> Option<&Stmt>
        ensures { option_copied result ≡ slice_get self.now.stmts id.place }
    {
        self.draft.design().stmts.as_slice().get(id.place)
    }

    /// The design so far.
    pub fn design(&self) -> &Design
        ensures is { result.now ≡ self.now }
        ensures keeps { DraftKeeps self.now }
    {
        self.draft.design()
    }

    /// Makes an expression over those that stand already, unless its shape has a fault or it has no place here.
    pub fn expr(&mut self, node: Expr) -> Result<Outcome<ExprId>, NoMemory>
        ensures ok { IfOk result (λ made. (made, self.new) ≡ make_expr node self.old) }
        ensures err { OnErr result (self.new ≡ self.old) }
    {
        match self.shape_made(&node) {
            Outcome::Made(shape) => {
                let id = self.push_expr(node, shape)?;
                Ok(Outcome::Made(id))
            }
            Outcome::Faulty(fault) => Ok(Outcome::Faulty(fault)),
            Outcome::Misplaced => Ok(Outcome::Misplaced),
        }
    }

    /// The shape that an expression has when it is made. Nothing is made yet.
    pub fn shape_made(&self, node: &Expr) -> Outcome<Shape>
        ensures { result ≡ shape_made node.now self.now }
    {
        if !self.expr_stands(node) {
            return Outcome::Misplaced;
        }
        let signals = self.draft.design().signals.as_slice();
        match node_shape(node, self.shapes.as_slice(), signals) {
            Ok(shape) => Outcome::Made(shape),
            Err(fault) => Outcome::Faulty(fault),
        }
    }

    // Whether what an expression names is there, and it has the operands that it takes.
    fn expr_stands(&self, node: &Expr) -> bool
        ensures { result ≡ making.expr_stands node.now self.now }
    {
        let design = self.draft.design();
        if !node.below(design.exprs.len()) {
            return false;
        }
        takes_operands(node)
            && has_parts(node)
            && names_there(design.signals.len(), design.memories.as_slice(), node)
            && self.has_plain_index(node)
    }

    // Whether the index of a word that is read is unsigned.
    fn has_plain_index(&self, node: &Expr) -> bool
        requires { IsTrue (expr_below node.now (length self.now.exprs)) }
        ensures { result ≡ kept.has_plain_index (shapes self.now) self.now.exprs node.now }
    {
        match node {
            Expr::Fetch { at, .. } => self.is_plain(*at),
            _ => true,
        }
    }

    // Whether an expression is unsigned.
    fn is_plain(&self, id: ExprId) -> bool
        requires { id.place < length self.now.exprs }
        ensures { result ≡ not (shape_of (shapes self.now) (designs.term self.now id.place)).signed }
    {
        !self.shapes.at(id.place).signed
    }

    // Adds an expression of this shape.
    fn push_expr(&mut self, node: Expr, shape: Shape) -> Result<ExprId, NoMemory>
        requires node { CanAddExpr self.old node }
        requires shape { shape ≡ expr_shape node self.old }
        ensures ok { IfOk result (λ id. ExprPut self.old self.new node id.place) }
        ensures err { OnErr result (self.new ≡ self.old) }
    {
        self.shapes.push(shape)?;
        match self.draft.push_expr(node) {
            Ok(id) => Ok(id),
            Err(NoMemory) => {
                self.shapes.pop();
                Err(NoMemory)
            }
        }
    }

    /// Makes a target over those that stand already, unless it has more than 127 bits or it has no place here.
    pub fn target(&mut self, node: Target) -> Result<Outcome<TargetId>, NoMemory>
        ensures ok { IfOk result (λ made. (made, self.new) ≡ make_target node self.old) }
        ensures err { OnErr result (self.new ≡ self.old) }
    {
        if !self.target_in(&node) {
            return Ok(Outcome::Misplaced);
        }
        match narrow(self.target_width(&node)) {
            Ok(bits) => {
                let id = self.push_target(node, bits)?;
                Ok(Outcome::Made(id))
            }
            Err(fault) => Ok(Outcome::Faulty(fault)),
        }
    }

    // Whether a target's parts, signal and index are there.
    fn target_in(&self, node: &Target) -> bool
        ensures { result ≡ target_in node.now self.now }
    {
        node.below(self.draft.design().targets.len()) && self.target_stands(node)
    }

    // Whether a target names a signal or a slice inside it, has parts, and an unsigned index.
    fn target_stands(&self, node: &Target) -> bool
        ensures { result ≡ kept.target_stands (shapes self.now) (length self.now.signals) self.now.exprs node.now }
    {
        match node {
            Target::Whole(x) => x.0 < self.draft.design().signals.len(),
            Target::Part { signal, low, len } => self.has_part(*signal, *low, *len),
            Target::Cat(parts) => 0 < parts.len(),
            Target::Pick { items, index } => 0 < items.len() && self.has_plain(*index),
        }
    }

    // Whether a signal is there and has these bits, at least one.
    fn has_part(&self, x: SigId, low: u8, len: u8) -> bool
        ensures { result ≡ kept.target_stands (shapes self.now) (length self.now.signals) self.now.exprs (target.Part x low len) }
    {
        match self.draft.design().signals.get(x.0) {
            Some(signal) => 1 <= len && low as u32 + len as u32 <= signal.shape.bits as u32,
            None => false,
        }
    }

    // Whether an expression is there and unsigned.
    fn has_plain(&self, id: ExprId) -> bool
        ensures { result ≡ making.has_plain self.now id }
    {
        match self.shape(id) {
            Some(shape) => !shape.signed,
            None => false,
        }
    }

    // The bits of a target.
    fn target_width(&self, node: &Target) -> u128
        requires { IsTrue (target_in node.now self.now) }
        ensures { result ≡ target_width node.now self.now }
    {
        match node {
            Target::Whole(x) => self.draft.design().signals.at(x.0).shape.bits as u128,
            Target::Part { len, .. } => *len as u128,
            Target::Cat(parts) => sum_of_bits(parts.as_slice(), self.bits.as_slice()),
            Target::Pick { items, .. } => {
                most_of_bits(items.as_slice(), self.bits.as_slice()) as u128
            }
        }
    }

    // Adds a target of so many bits.
    fn push_target(&mut self, node: Target, bits: u8) -> Result<TargetId, NoMemory>
        requires node { CanAddTarget self.old node }
        requires bits { bits ≡ target_width node self.old }
        ensures ok { IfOk result (λ id. TargetPut self.old self.new node id.place) }
        ensures err { OnErr result (self.new ≡ self.old) }
    {
        self.bits.push(bits)?;
        match self.draft.push_target(node) {
            Ok(id) => Ok(id),
            Err(NoMemory) => {
                self.bits.pop();
                Err(NoMemory)
            }
        }
    }

    /// Makes a statement over those that stand already, unless it has no place here.
    pub fn stmt(&mut self, node: Stmt) -> Result<Outcome<StmtId>, NoMemory>
        ensures ok { IfOk result (λ made. (made, self.new) ≡ make_stmt node self.old) }
        ensures err { OnErr result (self.new ≡ self.old) }
    {
        if !self.stmt_in(&node) {
            return Ok(Outcome::Misplaced);
        }
        let id = self.draft.push_stmt(node)?;
        Ok(Outcome::Made(id))
    }

    // Whether the parts of a statement are there.
    fn stmt_in(&self, node: &Stmt) -> bool
        ensures { result ≡ stmt_in node.now self.now }
    {
        let design = self.draft.design();
        node.below(design.stmts.len())
            && stmt_stands(design.exprs.len(), design.targets.len(), node)
    }

    /// The design, with these statements, domains, ports of memories and ports.
    pub fn finish(
        self,
        comb: List<StmtId>,
        sync: List<SyncPart>,
        domains: List<Domain>,
        ports: List<Port>,
        ios: List<SigId>,
    ) -> Design
        ensures is { result ≡ record self { comb = comb; sync = sync; domains = domains; ports = ports; ios = ios } }
        ensures keeps { DraftKeeps self }
    {
        self.draft.finish(comb, sync, domains, ports, ios)
    }
}
