//! The modules of a description, and what their attributes declare (Migen's `Module`; LiteX's CSR documentation,
//! "CSRConstant").

use crate::registers::{ManagerDecl, RegDecl};
use lx_text::{List, Word};

/// A module that is the top, or was added to it or below.
#[derive(Drop)]
pub struct ModuleDecl {
    /// The top's is its class's.
    pub name: Word,
    /// Whether an attribute of the module to which it was added binds it itself, so that its registers are collected.
    pub named: bool,
    /// In the order of the attributes; submodules without a name come last.
    pub parts: List<Part>,
}

/// What an attribute of a module declares.
#[derive(Drop)]
pub enum Part {
    Reg(RegDecl),
    Constant(ConstDecl),
    /// An event manager under its name.
    Manager(Word, ManagerDecl),
    /// A submodule, by its place among the modules.
    Module(usize),
}

/// A constant for software (`CSRConstant`, `add_constant`).
#[derive(Drop)]
pub struct ConstDecl {
    pub name: Word,
    pub value: ConstValue,
    /// The line of its call.
    pub line: u32,
}

/// What a constant is.
#[derive(Drop)]
pub enum ConstValue {
    /// From -2 to the 63 up to 2 to the 64, less 1.
    Number(i128),
    /// Printable ASCII without quote, backslash and comma.
    Text(Word),
    Nothing,
}
