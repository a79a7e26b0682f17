//! A test of what a description keeps of its FSMs: their statements stand, their signals have the right bits, and none of
//! them has or drives the reset of a clock domain.
#![tactic(auto)]

mod depths;
mod fsms;
mod kept;
mod resets;
mod signals;

pub use kept::fsms_stand;
