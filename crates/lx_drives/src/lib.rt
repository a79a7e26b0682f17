//! How the net of each signal of a lowered design is driven, and the sheet of the design.
#![tactic(auto)]

pub mod drives;
pub mod lowered;
pub mod marks;
pub mod numbers;
pub mod sheets;

pub use sheets::sheet;
