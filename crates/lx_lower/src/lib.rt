//! Designs whose statements are lowered: one list of flat statements for each signal.
#![tactic(auto)]

mod fixed;
mod fold;
mod known;
mod lists;
mod parts;
mod whole;

pub use whole::lower;
