//! A simulator of a design's circuit, and the run of a trace on it.
#![tactic(auto)]

mod blocks;
mod masks;
mod places;
mod plan;
mod planning;
mod settle;
mod simulator;
mod tell;
mod words;
pub mod worked;

pub use lx_trace::Event;
pub use simulator::Simulator;
pub use tell::run_trace;
