//! What the built-in names and the methods of a description do.
#![tactic(auto)]

pub mod arguments;
pub mod calls;
pub mod domains;
pub mod events;
pub mod exprs;
pub mod fsms;
pub mod memories;
pub mod numbers;
pub mod objects;
pub mod registers;
pub mod sequences;
pub mod signals;
pub mod systems;
pub mod worked;

pub use arguments::Arguments;
pub use calls::{builtin_called, method_called};
