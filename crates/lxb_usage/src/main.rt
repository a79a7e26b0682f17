//! The program `lxb` on words that are no command: the gate sees the number of its status.
#![tactic(auto)]

use lx_top::program;
use std::process::ExitCode;

fn main(rt: HostRuntime) -> ExitCode {
    let status = program(&rt, rt.alloc(), rt.stdout(), rt.stderr());
    ExitCode::from(status.number())
}
