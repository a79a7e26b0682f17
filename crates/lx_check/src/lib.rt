//! The check of a design: its drivers, the clocks of its memories, and cycles of reads.
#![tactic(auto)]

pub mod check;
pub mod faults;
pub mod graph;
pub mod marks;
pub mod order;
pub mod readers;
pub mod worked;
