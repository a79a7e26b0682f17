//! Running a description: its expressions, its statements and its classes.
#![tactic(auto)]

mod arguments;
pub mod classes;
pub mod descent;
mod loops;
mod reading;
pub mod run;
pub mod signs;
pub mod worked;

pub use classes::description_run;
