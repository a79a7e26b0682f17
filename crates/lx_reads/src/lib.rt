//! What the signals of a design read in the same moment, and where they are driven.
#![tactic(auto)]

pub mod exprs;
pub mod net;
pub mod targets;
pub mod walk;
pub mod whole;
