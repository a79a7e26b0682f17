//! A draft of a design that knows the shapes of its expressions, so that a node is made, or refused with its fault, in
//! time that grows with its own operands alone.
#![tactic(auto)]

pub mod laws;
mod outcome;
mod shaped;
mod sizes;
mod standing;

pub use outcome::Outcome;
pub use shaped::Shaped;
