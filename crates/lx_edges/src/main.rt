//! The edge of the program on what it can get wrong: the words of the command line, files that are stored and loaded
//! again, a console that is written more than one buffer, and readers and writers that give or take one byte at a time,
//! fail, or take nothing. What comes is written to standard output; `stdout` holds what must come.
#![tactic(auto)]

mod files;
mod forms;
mod showing;
mod words;

use files::show_files;
use forms::{show_readers, show_writers};
use lx_command::StdConsole;
use lx_outside::Console;
use lx_text::{NoMemory, Text};
use std::alloc::Global;
use std::env::Env;
use std::io::Write;
use std::process::ExitCode;
use std::rt::Files;
use words::show_words;

fn main(rt: HostRuntime) -> ExitCode {
    let alloc = rt.alloc();
    let mut out = Text::new(alloc);
    if let Err(NoMemory) = show_all(&rt, alloc, &mut out) {
        return ExitCode::from(5);
    }
    say_long(rt.stdout(), out)
}

fn show_all<R: Env + Files>(rt: &R, alloc: Global, out: &mut Text) -> Result<(), NoMemory> {
    show_words(rt, alloc, out)?;
    show_files(rt, alloc, out)?;
    show_readers(alloc, out)?;
    show_writers(alloc, out)
}

// All of it, and 200 lines of 100 bytes, in one call of a console.
fn say_long<W: Write + Drop>(writer: W, mut text: Text) -> ExitCode {
    if let Err(NoMemory) = add_lines(&mut text) {
        return ExitCode::from(5);
    }
    let mut con = StdConsole::new(writer);
    match con.say(text.as_bytes()) {
        Ok(()) => ExitCode::SUCCESS,
        Err(_) => ExitCode::from(4),
    }
}

fn add_lines(text: &mut Text) -> Result<(), NoMemory> {
    for line in 0..200u8 {
        for _ in 0..99u8 {
            text.word(&[b'A' + line % 26])?;
        }
        text.word(b"\n")?;
    }
    Ok(())
}
