//! What is read while the Verilog module of a design is made: names, operands, reset values and tables.
#![tactic(auto)]

pub mod drive;
pub mod memories;
pub mod names;
pub mod nodes;
pub mod operands;
pub mod resets;
pub mod signals;
pub mod tables;

pub use drive::Drive;
pub use memories::MemoryOf;
pub use nodes::NodeOf;
pub use signals::SignalOf;
pub use tables::{Sheet, Tables};
