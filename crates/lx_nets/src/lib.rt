//! The ports, nets, memories and assigns of a lowered design's module, in arenas.
#![tactic(auto)]

pub mod assigns;
pub mod decls;
pub mod exprs;
pub mod memories;
pub mod nets;
pub mod ports;
