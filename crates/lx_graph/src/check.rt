//! The check of a graph: an order of all nodes, or the cycle that is told.

ghost use Rattle.std.specs.Prelude.{IfOk};
ghost use Rattle.lx_graph.specs.Checked.{IsChecked, OrderHasNoCycle};
ghost use Rattle.lx_graph.specs.Worked.{AreWorked};

use crate::cycle::told_cycle;
use crate::graph::Graph;
use crate::search::{Searched, order_of};
use lx_text::{List, NoMemory};
use std::alloc::Global;

/// What the check of a graph answers.
#[derive(Drop)]
pub enum Checked {
    /// All nodes, each once and after those that it reads.
    Order(List<usize>),
    /// The plain nodes of a cycle, of which each reads the next, maybe through inner nodes, and the last reads the
    /// first. It begins with the lowest node that lies on a cycle, is a shortest cycle of that one, and at each link
    /// goes to the lowest node that still closes a shortest cycle.
    Loop(List<usize>),
}

/// Where there is an order, no plain node lies on a cycle.
pub fn order_law()
    ensures { OrderHasNoCycle }
{}

/// Some graphs and cycles worked by hand.
pub fn graphs_are_worked()
    ensures { AreWorked }
{}

/// An order of a graph's nodes, or else the cycle that is told. Both take time linear in the reads.
pub fn check_reads(alloc: Global, graph: &Graph) -> Result<Checked, NoMemory>
    ensures { IfOk result (λ checked. IsChecked graph.now checked) }
{
    match order_of(alloc, graph)? {
        Searched::Order(order) => Ok(Checked::Order(order)),
        Searched::Cycle(_) => Ok(Checked::Loop(told_cycle(alloc, graph)?)),
    }
}
