//! From the syntax tree of a text to the description that it makes, or its first fault.
#![tactic(auto)]

mod elaboration;
mod fsms;
pub mod worked;

pub use elaboration::elaborate;
