//! What a description says at its end: the circuit and the modules of a machine in which the top was made.
#![tactic(auto)]

mod apart;
pub mod describing;
mod fsms;
mod managers;
pub mod memories;
pub mod modules;
pub mod order;
pub mod parts;
pub mod signals;
pub mod start;
pub mod submodules;
mod systems;
pub mod worked;

pub use describing::described;
