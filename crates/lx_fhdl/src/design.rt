//! Signals, memories and their ports, clock domains, and designs.

use crate::exprs::{Exprs, SigId};
use crate::stmts::{StmtId, Stmts, Targets};
use lx_num::Shape;
use lx_text::{List, Word};

/// A signal ("Signal" of the FHDL description).
#[derive(Drop)]
pub struct Signal {
    /// The words of its name, from the outermost module on; empty for generated hardware.
    pub path: List<Word>,
    pub shape: Shape,
    /// A value of the shape.
    pub reset: i128,
    /// Whether the reset of its domain leaves it as it is.
    pub reset_less: bool,
    /// Whether the bus, a register or a source gives its value.
    pub by_bus: bool,
    pub line: u32,
}

/// A memory ("Memories" of the FHDL description).
#[derive(Drop)]
pub struct Memory {
    /// The words of its name, from the outermost module on; empty for generated hardware.
    pub path: List<Word>,
    /// The bits of a word, 1 to 64.
    pub width: u8,
    /// The number of words, 1 to 65,536.
    pub depth: u32,
    /// The contents of the first words, each below 2 to the width; the other words start at 0.
    pub init: List<u64>,
    pub line: u32,
}

/// What a port of a memory reads (the modes of `get_port`).
#[derive(Clone, Copy, PartialEq, Eq)]
pub enum PortMode {
    /// The word at the address now.
    Async,
    /// The word as it stands now, at the address of the last rise.
    WriteFirst,
    /// The word as it was before the last rise.
    ReadFirst,
    /// As `ReadFirst`, but a rise at which the port writes changes nothing.
    NoChange,
}

/// A port of a memory. It writes where `dat_w` and `we` are there.
#[derive(Clone, Copy, PartialEq, Eq)]
pub struct Port {
    pub memory: usize,
    /// Its clock domain; none where it is `Async` and doesn't write.
    pub domain: Option<usize>,
    pub adr: SigId,
    /// What it reads, of the memory's width.
    pub dat_r: Option<SigId>,
    /// What it writes, of the memory's width.
    pub dat_w: Option<SigId>,
    /// One bit for each part of the word that is written alone.
    pub we: Option<SigId>,
    /// The bits of such a part, which divide the width.
    pub part: u8,
    pub mode: PortMode,
}

/// A clock domain ("Clock domains" of the FHDL description).
#[derive(Drop)]
pub struct Domain {
    pub name: Word,
    /// Its reset, where it has one: an input of the design.
    pub reset: Option<SigId>,
}

/// Statements of a clock domain, by its place among the domains.
#[derive(Drop)]
pub struct SyncPart {
    pub domain: usize,
    pub stmts: List<StmtId>,
}

/// A circuit of FHDL, over the arenas of its expressions, targets and statements. Memories and domains are named by
/// their places.
#[derive(Drop)]
pub struct Design {
    pub exprs: Exprs,
    pub targets: Targets,
    pub stmts: Stmts,
    /// All signals, in order of creation.
    pub signals: List<Signal>,
    /// The combinatorial statements.
    pub comb: List<StmtId>,
    pub sync: List<SyncPart>,
    pub memories: List<Memory>,
    pub ports: List<Port>,
    pub domains: List<Domain>,
    /// The ports, in their order.
    pub ios: List<SigId>,
}
