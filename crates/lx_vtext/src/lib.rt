//! The text of a Verilog module: its tree, its bytes, and the one reading of those bytes.
#![tactic(auto)]

pub mod laws;
pub mod operators;

pub use laws::{bounds_are_worked, one_reading_law, one_text_law};
pub use operators::{BinOp, UnOp};
