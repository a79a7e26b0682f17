//! The whole program, over the outside as it is.

use crate::run::lxb;
use lx_command::{FileSink, FileSource, GivenArguments, Line, Status, StdConsole, arguments, tell};
use lx_text::NoMemory;
use std::alloc::Global;
use std::env::Env;
use std::io::Write;
use std::rt::Files;

/// Passes the words of the command line, the file system and the two outputs to the one call. Where there is no memory
/// for the words, it says so.
pub fn program<R: Env + Files, O: Write + Drop, E: Write + Drop>(
    rt: &R,
    alloc: Global,
    stdout: O,
    stderr: E,
) -> Status {
    let mut err = StdConsole::new(stderr);
    let words = match arguments(alloc, &GivenArguments::new(rt)) {
        Ok(words) => words,
        Err(NoMemory) => {
            tell(&mut err, Line::NoMemory);
            return Status::NoMemory;
        }
    };
    let mut src = FileSource::new(rt);
    let mut out = FileSink::new(rt);
    let mut con = StdConsole::new(stdout);
    lxb(
        alloc,
        words.as_slice(),
        &mut src,
        &mut out,
        &mut con,
        &mut err,
    )
}
