//! Words, lists, texts, and the faults that a description can have.
#![tactic(auto)]

pub mod faults;
pub mod lists;
pub mod texts;

pub use faults::{Fault, Kind, LimitKind, MAX_BYTES, Refusal};
pub use lists::{List, NoMemory, Word};
pub use texts::Text;
