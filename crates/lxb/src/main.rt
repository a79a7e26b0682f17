//! The program `lxb`: it ends with the status of its run.
#![tactic(auto)]

use lx_top::program;
use std::process::ExitCode;

fn main(rt: HostRuntime) -> ExitCode {
    let status = program(&rt, rt.alloc(), rt.stdout(), rt.stderr());
    ExitCode::from(status.number())
}
