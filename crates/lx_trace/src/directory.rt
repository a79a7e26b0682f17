//! What the names of a trace mean.

ghost use Rattle.std.specs.Prelude.{◌≡◌, ◌≤◌, ◌<◌, true, length, IfOk, IfSome, OnOk};
ghost use Rattle.lx_fhdl.specs.Designs.{shapes};
ghost use Rattle.lx_fhdl.specs.Keeping.{Keeps};
ghost use Rattle.lx_trace.specs.Directories.{AreInputs, IsAdded, IsTable};
ghost use Rattle.lx_trace.specs.Traces.{has_path, if_input, signal_named};

use lx_fhdl::{Design, Signal};
use lx_names::Table;
use lx_num::Shape;
use lx_text::{List, NoMemory, Word};
use std::alloc::Global;
use std::marker::Model;

/// The signals of a design by the names of their nets, and which of them are inputs.
#[derive(Drop)]
pub struct Directory<'a> {
    design: &'a Design,
    names: &'a List<Word>,
    inputs: &'a [bool],
    table: Table<usize>,
}

impl<'a> Model for Directory<'a> {
    ghost use Rattle.lx_trace.specs.Directories.{Named};

    ghost Value = { Named };

    ghost use Rattle.lx_trace.specs.Directories.{IsDirectory};

    ghost view = { λ a. record { design = a.design.now; names = a.names.now } };

    ghost invariant = { λ a. IsDirectory a.design.now a.names.now a.inputs.now a.table };
}

// Whether a signal has a path: generated hardware has none.
fn has_path(signal: &Signal) -> bool
    ensures { result ≡ has_path signal.now }
{
    !signal.path.is_empty()
}

// Adds a name, unless it is there.
#[tactic(auto, using(crate::proofs::Tables::added_there, crate::proofs::Tables::added_new))]
fn add(table: &mut Table<usize>, name: &[u8], x: usize) -> Result<(), NoMemory>
    ensures { OnOk result (IsAdded table.old table.new name.now true x) }
{
    match table.get(name) {
        Some(_) => Ok(()),
        None => table.set(name, x),
    }
}

// Adds the name of a signal's net, where the signal has a path, unless it is there.
#[tactic(auto, using(crate::proofs::Tables::not_added))]
fn add_signal(
    table: &mut Table<usize>,
    signal: &Signal,
    name: &[u8],
    x: usize,
) -> Result<(), NoMemory>
    ensures { OnOk result (IsAdded table.old table.new name.now (has_path signal.now) x) }
{
    if has_path(signal) {
        add(table, name, x)
    } else {
        Ok(())
    }
}

// The signals with a path by the names of their nets.
fn table(alloc: Global, design: &Design, names: &List<Word>) -> Result<Table<usize>, NoMemory>
    requires { length design.now.signals ≤ length names.now }
    ensures { IfOk result (λ table. IsTable design.now names.now table) }
{
    let mut table = Table::new(alloc);
    for x in 0..design.signals.len() {
        add_signal(&mut table, design.signals.at(x), names.at(x).as_bytes(), x)?;
    }
    Ok(table)
}

impl<'a> Directory<'a> {
    /// The directory of a design, whose nets have these names, and of whose signals these are inputs.
    pub fn new(
        alloc: Global,
        design: &'a Design,
        names: &'a List<Word>,
        inputs: &'a [bool],
    ) -> Result<Directory<'a>, NoMemory>
        requires keeps { Keeps design.now }
        requires names { length design.now.signals ≤ length names.now }
        requires inputs { AreInputs design.now inputs.now }
        ensures { IfOk result (λ a. a ≡ record { design = design.now; names = names.now }) }
    {
        let table = table(alloc, design, names)?;
        Ok(Directory {
            design,
            names,
            inputs,
            table,
        })
    }

    /// The signal that a name means.
    #[tactic(auto, using(crate::proofs::Tables::among_below))]
    pub fn signal(&self, name: &[u8]) -> Option<usize>
        ensures is { result ≡ signal_named self.now.design self.now.names name.now }
        ensures there { IfSome result (λ x. x < length self.now.design.signals) }
    {
        self.table.get(name)
    }

    /// The input that a name means.
    pub fn input(&self, name: &[u8]) -> Option<usize>
        ensures is { result ≡ if_input self.now.design (signal_named self.now.design self.now.names name.now) }
        ensures there { IfSome result (λ x. x < length self.now.design.signals) }
    {
        let x = self.signal(name)?;
        if self.inputs[x] { Some(x) } else { None }
    }

    /// The shape of a signal.
    #[tactic(auto, using(crate::proofs::Shapes::shape_is, lx_fhdl::proofs::Designs::signal_some, lx_fhdl::proofs::Designs::signal_most))]
    pub fn shape(&self, x: usize) -> Shape
        requires { x < length self.now.design.signals }
        ensures is { result ≡ shapes self.now.design x }
        ensures some { 1 ≤ result.bits }
        ensures most { result.bits ≤ 64 }
    {
        self.design.signals.at(x).shape
    }

    /// The design.
    pub fn design(&self) -> &'a Design
        ensures is { result.now ≡ self.now.design }
        ensures keeps { Keeps self.now.design }
    {
        self.design
    }
}
