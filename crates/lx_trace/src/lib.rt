//! Traces: the lines by which a description's circuit is run, and their faults.
#![tactic(auto)]

pub mod acts;
mod directory;
mod numbers;
mod pieces;
mod reading;
pub mod worked;

pub use acts::{Event, TraceAct, TraceLine};
pub use reading::read_trace;
