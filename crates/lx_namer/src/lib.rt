//! The names of a design's nets and memories.
#![tactic(auto)]

pub mod base;
pub mod laws;
mod marks;
pub mod names;
pub mod nets;
mod taken;
pub mod worked;

pub use base::base_name;
