//! The Verilog module of a lowered design, in arenas.
#![tactic(auto)]

pub mod whole;

pub use whole::emit_design;
