//! Writes the modules of designs of any size, to see what it costs. The words of the command line are a count of signals,
//! `lines` or `if`, and `print` for the module's text in place of its length.
#![tactic(auto)]

mod designs;
mod names;

ghost use Rattle.std.specs.Prelude.{◌≤◌};

use designs::{Form, design};
use lx_text::{NoMemory, Text};
use lx_vprint::print;
use lx_write::write_module;
use names::names;
use std::alloc::Global;
use std::env;
use std::io::Write;
use std::process::ExitCode;

/// What is asked for.
#[derive(Clone, Copy)]
struct Wanted {
    count: u32,
    form: Form,
    printed: bool,
}

fn asked(rt: &HostRuntime) -> Result<Wanted, std::io::Error> {
    let mut wanted = Wanted {
        count: 1,
        form: Form::Lines,
        printed: false,
    };
    for word in env::args(rt)? {
        match word.as_str() {
            "lines" => wanted.form = Form::Lines,
            "if" => wanted.form = Form::If,
            "print" => wanted.printed = true,
            other => wanted.count = other.parse::<u32>().unwrap_or(1),
        }
    }
    Ok(wanted)
}

// The text of the module of a design of so many signals.
#[tactic(auto, using(crate::proofs::Fans::can_be_written))]
fn text(alloc: Global, count: usize, form: Form) -> Result<Text, NoMemory>
    requires { 1 ≤ count }
{
    let design = design(alloc, count, form)?;
    let names = names(alloc, count)?;
    let module = write_module(alloc, &design, &names)?;
    print(alloc, &module)
}

fn main(rt: HostRuntime) -> Result<ExitCode, std::io::Error> {
    let wanted = asked(&rt)?;
    let count = wanted.count.max(1) as usize;
    let Ok(text) = text(rt.alloc(), count, wanted.form) else {
        return Ok(ExitCode::from(5));
    };
    if wanted.printed {
        rt.stdout().write_all(text.as_bytes())?;
    } else {
        println!(rt; "{}", text.as_bytes().len())?;
    }
    Ok(ExitCode::SUCCESS)
}
