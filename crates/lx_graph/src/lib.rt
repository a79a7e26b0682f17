//! Orders of graphs, and the shortest cycle where there is no order.
#![tactic(auto)]

pub mod check;
mod cycle;
pub mod graph;
mod levels;
mod ranks;
mod search;

pub use check::{Checked, check_reads, graphs_are_worked, order_law};
pub use graph::Graph;
