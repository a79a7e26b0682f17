//! A Verilog module: each form of the text is one struct or variant, with its fields in the order of the text.

ghost use Rattle.std.specs.Prelude.{◌≡◌};
ghost use Rattle.lx_vtree.specs.Modules.{HaveText};

use crate::nodes::{ExprId, Literal, StmtId};
use crate::trees::Nodes;
use lx_text::{List, Word};
use std::marker::Model;

/// A net: a wire, or a register with its first value (IEEE 1364-2005, "Net and variable declarations").
#[derive(Drop)]
pub struct Net {
    pub signed: bool,
    /// How many bits; one bit has no range in the text.
    pub bits: u64,
    pub name: Word,
    /// The first value of a `reg`; a `wire` has none.
    pub init: Option<Literal>,
}

/// A port: `input wire`, `output wire` or `output reg`.
#[derive(Drop)]
pub struct Port {
    pub is_input: bool,
    pub net: Net,
}

/// A memory of `depth` words: `reg [bits-1:0] name [0:depth-1];`.
#[derive(Drop)]
pub struct Memory {
    pub bits: u64,
    pub name: Word,
    pub depth: u64,
}

/// A declaration.
#[derive(Drop)]
pub enum Decl {
    Net(Net),
    Memory(Memory),
}

/// A line `name[index] = value;` of an initial block.
#[derive(Drop)]
pub struct WordInit {
    pub name: Word,
    pub index: u64,
    pub value: Literal,
}

/// A block `initial begin`, its lines, `end`.
#[derive(Drop)]
pub struct Initial {
    pub words: List<WordInit>,
}

/// `assign name = value;`
#[derive(Drop)]
pub struct Assign {
    pub name: Word,
    pub value: ExprId,
}

/// `always @(*) begin`, or `always @(posedge clock) begin`, its statements, `end`.
#[derive(Drop)]
pub struct Always {
    pub clock: Option<Word>,
    pub body: List<StmtId>,
}

/// The parts of a module, in the order of the text, over its expressions and statements.
#[derive(Drop)]
pub struct Parts {
    pub nodes: Nodes,
    pub ports: List<Port>,
    pub decls: List<Decl>,
    pub inits: List<Initial>,
    pub assigns: List<Assign>,
    pub always: List<Always>,
}

/// A module that has a text: its names are names and no keywords, its literals are in their bounds,
/// its brackets nest at most 32 and its statements at most 128 deep.
#[derive(Drop)]
pub struct Module {
    parts: Parts,
}

impl Model for Module {
    ghost use Rattle.lx_vtree.specs.declared.modules.Parts.{Parts};
    ghost use Rattle.lx_vtree.specs.Modules.{HaveText};

    ghost Value = { Parts };

    ghost view = { λ m. m.parts };

    ghost invariant = { λ m. HaveText m.parts };
}

impl Module {
    /// The module of these parts.
    pub fn new(parts: Parts) -> Module
        requires { HaveText parts }
        ensures { result ≡ parts }
    {
        Module { parts }
    }

    /// The parts, which have a text.
    pub fn parts(&self) -> &Parts
        ensures same { result.now ≡ self.now }
        ensures text { HaveText result.now }
    {
        &self.parts
    }
}
