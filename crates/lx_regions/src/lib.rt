//! Where the regions of an address space go: largest first, each at the lowest place that is free.
#![tactic(auto)]

pub mod filling;
pub mod spots;

pub use filling::{exhaustion_law, fill, free_law};
pub use spots::{Place, Spot, is_inside, rounded_size, wanted};
