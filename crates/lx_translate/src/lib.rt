//! A circuit becomes the text of a Verilog module that gives what it means, or has a fault.
#![tactic(auto)]

pub mod laws;
pub mod writing;

pub use writing::top_v;
