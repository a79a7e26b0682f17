//! The program's one call: words in, files and lines out.
#![tactic(auto)]

pub mod entry;
mod files;
pub mod laws;
mod listing;
pub mod making;
pub mod modules;
pub mod run;

pub use entry::program;
pub use laws::{completeness_law, giving_law, one_answer_law, one_text_law};
pub use run::lxb;
