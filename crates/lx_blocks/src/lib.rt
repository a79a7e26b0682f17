//! The always blocks of a lowered design's module, in arenas.
#![tactic(auto)]

pub mod always;
pub mod blocks;
pub mod stmts;
pub mod write;
pub mod writes;
