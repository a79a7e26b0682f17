//! A command, whatever it means: its words, the files and streams that it reads and writes, its lines and its statuses.
#![tactic(auto)]

pub mod command_line;
pub mod commands;
pub mod delivering;
pub mod fetching;
pub mod files;
pub mod judging;
pub mod lines;
pub mod status;
pub mod texts;
pub mod writers;

pub use command_line::{Given, GivenArguments, arguments};
pub use commands::Command;
pub use files::{FileSink, FileSource, read_up_to};
pub use lines::{Line, tell};
pub use status::Status;
pub use writers::{StdConsole, write_whole};
