//! The check of a design.

ghost use Rattle.std.specs.Prelude.{◌≡◌, None, length, IfOk};
ghost use Rattle.lx_fhdl.specs.Keeping.{Keeps};
ghost use Rattle.lx_reads.specs.Drivings.{drivings};
ghost use Rattle.lx_reads.specs.Whole.{IsCombNet};
ghost use Rattle.lx_check.specs.Checked.{Checks};
ghost use Rattle.lx_check.specs.Faults.{first_fault};
ghost use Rattle.lx_check.specs.Graphs.{IsReadGraph, all_reads, comb_reads};
ghost use Rattle.lx_check.specs.Marks.{AreMarks, AreReaders};

use crate::faults::first_fault;
use crate::graph::{add_ports, comb_graph};
use crate::marks::{Mark, marks};
use crate::order::{loop_fault, signals_among};
use crate::readers::readers;
use lx_fhdl::{Design, Port, SigId};
use lx_graph::{Checked, Graph, check_reads};
use lx_reads::net::Net;
use lx_reads::whole::{comb_net, put_domains};
use lx_text::{List, NoMemory, Refusal};
use std::alloc::Global;

// The marks of all signals, from the net of the combinatorial statements.
fn all_marks(alloc: Global, design: &Design, net: &mut Net) -> Result<Vec<Mark>, NoMemory>
    requires { IsCombNet design.now net.old }
    ensures { IfOk result (λ marks. AreMarks (length design.now.signals) (drivings design.now) marks.items) }
{
    put_domains(alloc, design, net)?;
    let marks = marks(alloc, design.signals.len(), net.driven.as_slice())?;
    Ok(marks)
}

// An order of the signals, or the cycle that is told, where the drivers and the memories have no fault.
fn order_or_loop(
    alloc: Global,
    design: &Design,
    marks: &[Mark],
    graph: &Graph,
) -> Result<List<SigId>, Refusal>
    requires faultless { first_fault design.now ≡ None }
    requires marks { AreMarks (length design.now.signals) (drivings design.now) marks.now }
    requires graph { IsReadGraph design.now (all_reads design.now) graph.now }
    ensures { Checks design.now result }
{
    match check_reads(alloc, graph)? {
        Checked::Order(nodes) => {
            let order = signals_among(alloc, design.signals.len(), nodes.as_slice())?;
            Ok(order)
        }
        Checked::Loop(cycle) => {
            let fault = loop_fault(alloc, design, marks, cycle.as_slice())?;
            Err(Refusal::Fault(fault))
        }
    }
}

// The same, before what ports show is in the graph.
fn order_of_all(
    alloc: Global,
    design: &Design,
    marks: &[Mark],
    readers: &[Option<Port>],
    graph: &mut Graph,
) -> Result<List<SigId>, Refusal>
    requires keeps { Keeps design.now }
    requires faultless { first_fault design.now ≡ None }
    requires marks { AreMarks (length design.now.signals) (drivings design.now) marks.now }
    requires readers { AreReaders (length design.now.signals) design.now.ports readers.now }
    requires graph { IsReadGraph design.now (comb_reads design.now) graph.old }
    ensures { Checks design.now result }
{
    add_ports(design, marks, readers, graph)?;
    order_or_loop(alloc, design, marks, graph)
}

// The first fault, or else an order of the signals or the cycle that is told.
fn fault_or_order(
    alloc: Global,
    design: &Design,
    marks: &[Mark],
    readers: &[Option<Port>],
    graph: &mut Graph,
) -> Result<List<SigId>, Refusal>
    requires keeps { Keeps design.now }
    requires marks { AreMarks (length design.now.signals) (drivings design.now) marks.now }
    requires readers { AreReaders (length design.now.signals) design.now.ports readers.now }
    requires graph { IsReadGraph design.now (comb_reads design.now) graph.old }
    ensures { Checks design.now result }
{
    match first_fault(alloc, design, marks, readers)? {
        Some(fault) => Err(Refusal::Fault(fault)),
        None => order_of_all(alloc, design, marks, readers, graph),
    }
}

/// An order of a design's signals, in which each stands after those that it reads in the same moment. Else it is the
/// first fault of the design: `StorageDriven` of the lowest output that a statement drives, `TwoDrivers` of the lowest
/// signal with two drivers, `MemoryClocks` of the first memory that two domains write, or `CombLoop` with the cycle.
pub fn check(alloc: Global, design: &Design) -> Result<List<SigId>, Refusal>
    requires { Keeps design.now }
    ensures { Checks design.now result }
{
    let mut net = comb_net(alloc, design)?;
    let mut graph = comb_graph(alloc, design, &net)?;
    let marks = all_marks(alloc, design, &mut net)?;
    let readers = readers(alloc, design)?;
    fault_or_order(
        alloc,
        design,
        marks.as_slice(),
        readers.as_slice(),
        &mut graph,
    )
}
