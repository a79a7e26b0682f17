//! Where the parts of a system go: regions, numbers of banks, numbers of interrupts; or the first fault.
#![tactic(auto)]

pub mod least;
pub mod numbers;
pub mod origins;
pub mod placing;

pub use numbers::are_distinct;
pub use origins::are_sized;
pub use placing::{exhaustion_law, free_law, place};
