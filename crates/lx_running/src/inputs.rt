//! The inputs of a description's circuit.

ghost use Rattle.std.specs.Prelude.{IfOk};
ghost use Rattle.lx_running.specs.Parts.{HaveInputs};
ghost use Rattle.lx_trace.specs.Directories.{AreInputs};

use lx_fhdl::{Design, SigId};
use lx_sim::Simulator;
use lx_text::{List, NoMemory};
use std::alloc::Global;

/// Which of a design's signals are inputs; the simulator's design has these signals, and maybe more.
#[tactic(auto, using(crate::proofs::Marks::none_marked, crate::proofs::Marks::one_marked, crate::proofs::Marks::all_marked))]
pub(crate) fn inputs(
    alloc: Global,
    design: &Design,
    simulator: &Simulator<'_>,
) -> Result<List<bool>, NoMemory>
    requires { HaveInputs design.now simulator.now.design }
    ensures { IfOk result (λ inputs. AreInputs design.now inputs) }
{
    let mut inputs = List::new(alloc);
    for x in 0..design.signals.len() {
        inputs.push(simulator.is_input(SigId(x)))?;
    }
    Ok(inputs)
}
