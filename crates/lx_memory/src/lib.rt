//! Ports of memories become registers and reads of words ("Memories" of the FHDL description).
#![tactic(auto)]

mod alone;
mod copies;
mod growing;
pub mod laws;
mod lowering;
mod words;

pub use alone::shows_alone;
pub use lowering::lower_ports;
