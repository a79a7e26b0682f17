//! The names of what a running description has made, and the paths of its signals.
#![tactic(auto)]

pub mod names;
pub mod paths;
pub mod worked;
