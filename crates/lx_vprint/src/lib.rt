//! The text of a Verilog module (IEEE 1364-2005): exactly the text of its tree, and so of no other.
#![tactic(auto)]

mod exprs;
pub mod laws;
mod leaves;
mod parts;
mod stmts;
mod whole;

pub use laws::forms_are_worked;
pub use whole::print;
