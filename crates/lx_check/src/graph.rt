//! The graph of what a design's signals read: the signals as plain nodes, the rows of its net as inner ones.

ghost use Rattle.std.specs.Prelude.{◌≡◌, ◌<◌, length, IfOk, IfSome, OnOk};
ghost use Rattle.lx_fhdl.specs.Keeping.{Keeps};
ghost use Rattle.lx_reads.specs.Drivings.{drivings};
ghost use Rattle.lx_reads.specs.Net.{IsNet, net_reads};
ghost use Rattle.lx_reads.specs.Whole.{IsCombNet};
ghost use Rattle.lx_check.specs.Graphs.{HasReads, HasRows, IsReadGraph, all_reads, comb_reads, shown_address, with_address};
ghost use Rattle.lx_check.specs.Marks.{AreMarks, AreReaders};

use crate::marks::Mark;
use lx_fhdl::{Design, Port, PortMode};
use lx_graph::Graph;
use lx_reads::net::Net;
use lx_text::{List, NoMemory};
use std::alloc::Global;

// The same numbers.
fn copied(alloc: Global, numbers: &[usize]) -> Result<List<usize>, NoMemory>
    ensures { IfOk result (λ list. list ≡ numbers.now) }
{
    let mut list = List::new(alloc);
    for number in numbers {
        list.push(*number)?;
    }
    Ok(list)
}

// The rows of a net, after signals that read nothing.
fn with_rows(alloc: Global, design: &Design, net: &Net) -> Result<Graph, NoMemory>
    requires { IsNet design.now net.now }
    ensures { IfOk result (λ graph. HasRows design.now net.now (length net.now.rows) graph) }
{
    let mut graph = Graph::new(alloc, design.signals.len())?;
    for row in net.rows.as_slice() {
        let reads = copied(alloc, row.as_slice())?;
        graph.add_node(reads)?;
    }
    Ok(graph)
}

// Lets each signal that is driven read its assignments.
fn add_driven(design: &Design, net: &Net, graph: &mut Graph) -> Result<(), NoMemory>
    requires net { IsNet design.now net.now }
    requires rows { HasRows design.now net.now (length net.now.rows) graph.old }
    ensures { OnOk result (HasReads design.now net.now.rows (net_reads design.now net.now) graph.new) }
{
    let _design = design;
    for one in net.driven.as_slice() {
        graph.add_read(one.signal, one.node)?;
    }
    Ok(())
}

/// The graph of the combinatorial statements.
pub fn comb_graph(alloc: Global, design: &Design, net: &Net) -> Result<Graph, NoMemory>
    requires { IsCombNet design.now net.now }
    ensures { IfOk result (λ graph. IsReadGraph design.now (comb_reads design.now) graph) }
{
    let mut graph = with_rows(alloc, design, net)?;
    add_driven(design, net, &mut graph)?;
    Ok(graph)
}

// The address that a signal reads as dat_r of its first port.
fn shown_address(mark: Mark, reader: Option<Port>) -> Option<usize>
    ensures { result ≡ shown_address mark reader }
{
    match reader {
        Some(port) if mark.first.is_none() && port.mode == PortMode::Async => Some(port.adr.0),
        _ => None,
    }
}

// Lets a signal read an address, where there is one.
fn add_address(graph: &mut Graph, x: usize, address: Option<usize>) -> Result<(), NoMemory>
    requires signal { x < graph.old.plain }
    requires address { IfSome address (λ a. a < length graph.old.rows) }
    ensures { OnOk result (graph.new ≡ with_address graph.old x address) }
{
    if let Some(a) = address {
        graph.add_read(x, a)?;
    }
    Ok(())
}

/// Adds to the graph of the combinatorial statements what ports show.
pub fn add_ports(
    design: &Design,
    marks: &[Mark],
    readers: &[Option<Port>],
    graph: &mut Graph,
) -> Result<(), NoMemory>
    requires keeps { Keeps design.now }
    requires marks { AreMarks (length design.now.signals) (drivings design.now) marks.now }
    requires readers { AreReaders (length design.now.signals) design.now.ports readers.now }
    requires graph { IsReadGraph design.now (comb_reads design.now) graph.old }
    ensures { OnOk result (IsReadGraph design.now (all_reads design.now) graph.new) }
{
    for x in 0..design.signals.len() {
        add_address(graph, x, shown_address(marks[x], readers[x]))?;
    }
    Ok(())
}
