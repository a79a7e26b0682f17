//! Worked rows: whole designs to the text of their modules, a design with statements and targets of each form to its module
//! and the lines of its lowered statements, and the texts of all operators. `stdout` holds the texts that must come.
#![tactic(auto)]

mod designs;
mod each_form;
mod lowered;
mod nodes;
mod operators;
mod parts;

use lx_text::{NoMemory, Text};
use operators::operators_are_read;
use std::alloc::Global;
use std::io::Write;
use std::process::ExitCode;

fn main(rt: HostRuntime) -> ExitCode {
    operators_are_read();
    let mut out = Text::new(rt.alloc());
    if let Err(NoMemory) = show(rt.alloc(), &mut out) {
        return ExitCode::from(5);
    }
    match rt.stdout().write_all(out.as_bytes()) {
        Ok(()) => ExitCode::SUCCESS,
        Err(_) => ExitCode::from(4),
    }
}

fn show(alloc: Global, out: &mut Text) -> Result<(), NoMemory> {
    designs::show_all(alloc, out)?;
    lowered::show(alloc, out)
}
