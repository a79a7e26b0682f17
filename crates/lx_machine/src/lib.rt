//! The system machine: what the bus of a system does, and what an accessor does on it.
#![tactic(auto)]

pub mod laws;
pub mod worked;
