//! Runs the cases of the lower layers that stand on standard input, and writes what comes of each: numbers, tables, texts,
//! arguments, files in memory, nodes of expressions, and placement. `stdout` holds what must come.
#![tactic(auto)]

mod arguments;
mod lines;
mod numbers;
mod outside;
mod placing;
mod reading;
mod shapes;
mod tables;
mod texts;
mod values;
mod wishes;

use lines::run_all;
use lx_text::{NoMemory, Text};
use std::io::{Read, Write};
use std::process::ExitCode;

fn main(rt: HostRuntime) -> ExitCode {
    let alloc = rt.alloc();
    let mut source = Vec::new(alloc);
    if rt.stdin().read_to_end(&mut source).is_err() {
        return ExitCode::from(3);
    }
    let mut out = Text::new(alloc);
    if let Err(NoMemory) = run_all(alloc, source.as_slice(), &mut out) {
        return ExitCode::from(5);
    }
    match rt.stdout().write_all(out.as_bytes()) {
        Ok(()) => ExitCode::SUCCESS,
        Err(_) => ExitCode::from(4),
    }
}
