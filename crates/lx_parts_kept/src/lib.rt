//! A test of what a description keeps beside its design and its FSMs: its registers, event managers, constants and modules
//! stand, its signals have one place each, and a system's regions have their slaves.
#![tactic(auto)]

mod kept;
mod laws;
mod modules;
mod places;
mod registers;
mod signals;
mod system;

pub use kept::parts_keep;
pub use laws::{parts_are_tested, parts_law};
