//! A draft of a lowered design: its nodes, its conditions, and its flat statements, each for one signal.
#![tactic(auto)]

pub mod conds;
pub mod groups;
pub mod operands;
pub mod owned;
pub mod plain;
pub mod source;
