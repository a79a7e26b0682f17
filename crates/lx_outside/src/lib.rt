//! The outside of the program: files that are read, files that are stored, and text that is said.
#![tactic(auto)]

pub mod calls;
pub mod consoles;
mod rooms;
pub mod sinks;
pub mod sources;

pub use calls::{Console, Fail, Failed, LoadFault, Pair, Sink, Source};
pub use consoles::{MemConsole, NullConsole};
pub use sinks::{MemSink, NullSink};
pub use sources::{MemSource, SureSource, have_distinct_names};
