//! The statements of a design, flattened: each assigns a signal or some of its bits, under its own condition.
#![tactic(auto)]

mod assigns;
mod bits;
mod flat;
mod keys;
mod sites;

pub use flat::flatten;
pub use sites::StmtsIn;
