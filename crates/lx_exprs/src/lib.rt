//! The expressions of a design, lowered.
#![tactic(auto)]

pub mod copies;
pub mod exprs;
