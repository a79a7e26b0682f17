//! Elaborates the texts that stand on standard input, one behind each line `== NAME`, and writes what each one describes,
//! or the line that tells its fault. `stdout` holds what must come.
#![tactic(auto)]

mod exprs;
mod fsms;
mod memories;
mod parts;
mod pieces;
mod sheet;
mod stmts;

use lx_description::Description;
use lx_elab::elaborate;
use lx_faults::fault_line;
use lx_pytree::read;
use lx_text::{NoMemory, Refusal, Text};
use lx_token::tokens::tokens;
use sheet::put_description;
use std::alloc::Global;
use std::io::{Read, Write};
use std::process::ExitCode;

fn described(alloc: Global, source: &[u8]) -> Result<Description, Refusal> {
    let tokens = tokens(alloc, source)?;
    let tree = read(alloc, source, &tokens)?;
    elaborate(alloc, source, &tree)
}

fn show(alloc: Global, source: &[u8], out: &mut Text) -> Result<(), NoMemory> {
    match described(alloc, source) {
        Ok(description) => put_description(&description, out),
        Err(Refusal::Fault(fault)) => {
            let line = fault_line(alloc, b"soc.py", &fault)?;
            out.word(line.as_bytes())
        }
        Err(Refusal::NoMemory) => Err(NoMemory),
    }
}

fn show_all(alloc: Global, source: &[u8], out: &mut Text) -> Result<(), NoMemory> {
    let mut text = Text::new(alloc);
    for line in source.split(|byte| *byte == b'\n') {
        match line {
            [b'=', b'=', ..] => {
                if !text.as_bytes().is_empty() {
                    show(alloc, text.as_bytes(), out)?;
                }
                text = Text::new(alloc);
                out.word(line)?;
                out.word(b"\n")?;
            }
            _ => {
                text.word(line)?;
                text.word(b"\n")?;
            }
        }
    }
    show(alloc, text.as_bytes(), out)
}

fn main(rt: HostRuntime) -> ExitCode {
    let alloc = rt.alloc();
    let mut source = Vec::new(alloc);
    if rt.stdin().read_to_end(&mut source).is_err() {
        return ExitCode::from(3);
    }
    let mut out = Text::new(alloc);
    if let Err(NoMemory) = show_all(alloc, source.as_slice(), &mut out) {
        return ExitCode::from(5);
    }
    match rt.stdout().write_all(out.as_bytes()) {
        Ok(()) => ExitCode::SUCCESS,
        Err(_) => ExitCode::from(4),
    }
}
