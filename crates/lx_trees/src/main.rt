//! Reads the texts that stand on standard input, and writes the nodes of their trees, or that there is none, and what the
//! nodes and classes of a description say. `stdout` holds what must come.
#![tactic(auto)]

mod exprs;
mod lines;
mod pieces;
mod sheet;
mod showing;
mod stmts;
mod tokens;

use lines::run_all;
use lx_text::{NoMemory, Text};
use std::io::{Read, Write};
use std::process::ExitCode;

fn main(rt: HostRuntime) -> ExitCode {
    let alloc = rt.alloc();
    let mut source = Vec::new(alloc);
    if rt.stdin().read_to_end(&mut source).is_err() {
        return ExitCode::from(3);
    }
    let mut out = Text::new(alloc);
    if let Err(NoMemory) = run_all(alloc, source.as_slice(), &mut out) {
        return ExitCode::from(5);
    }
    match rt.stdout().write_all(out.as_bytes()) {
        Ok(()) => ExitCode::SUCCESS,
        Err(_) => ExitCode::from(4),
    }
}
