//! A test of what a design keeps, in time that is linear in the design.
#![tactic(auto)]

mod depths;
mod domains;
mod drivers;
mod kept;
mod ports;

pub use kept::is_kept;
