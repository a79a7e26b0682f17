//! Finite state machines become statements of a design (Migen's `genlib.fsm`): in each state the statements that stand in
//! it are taken, a register of the clock domain `sys` is the state's number, and `ongoing` of a state is 1 in it.
#![tactic(auto)]

mod checks;
mod flattening;
mod growing;
pub mod laws;
mod lowering;
mod numbers;
mod source;
mod states;

pub use checks::check_fsm;
pub use flattening::without_fsms;
pub use growing::Growing;
pub use lowering::{FsmLists, lower_fsm};
