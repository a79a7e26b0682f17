//! The check accepts a design with its ports lowered wherever it accepts the design.
#![tactic(auto)]

pub mod laws;
