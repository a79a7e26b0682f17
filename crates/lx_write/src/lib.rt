//! The Verilog module of a design: the design is lowered, and the lowered design is emitted.
#![tactic(auto)]

pub mod laws;
pub mod whole;

pub use laws::stored_law;
pub use whole::write_module;
