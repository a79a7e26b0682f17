//! The circuit of a description is run on traces.
#![tactic(auto)]

mod inputs;
pub mod laws;
mod runner;

pub use runner::{Runner, named};
