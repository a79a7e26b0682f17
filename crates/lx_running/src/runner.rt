//! A circuit without a fault, and what it answers to traces.

ghost use Rattle.std.specs.Prelude.{◌≡◌, ◌≤◌, ◌<◌, length};
ghost use Rattle.lx_fhdl.specs.Keeping.{Keeps};
ghost use Rattle.lx_memory.specs.Lowers.{IsPortsOf};
ghost use Rattle.lx_sim.specs.Moments.{Shows, start};
ghost use Rattle.lx_running.specs.Parts.{AreNamesOf, IsNaming, Readies};
ghost use Rattle.lx_running.specs.Traced.{AnswersTo};

use crate::inputs::inputs;
use lx_check::check::check;
use lx_fhdl::{Design, Steps};
use lx_memory::{lower_ports, shows_alone};
use lx_namer::names::names;
use lx_namer::nets::Names;
use lx_sim::{Simulator, run_trace};
use lx_text::{Fault, Kind, List, Refusal, Text, Word};
use lx_trace::read_trace;
use std::alloc::Global;
use std::marker::{Brand, Model};
use std::sync::ledger::{Blank, Ledger};

/// A circuit without a fault, that can be run on traces. It is seen as its design.
#[derive(Drop)]
pub struct Runner<'a> {
    design: &'a Design,
    names: Names,
    // the design with its ports lowered
    lowered: Design,
}

impl<'a> Model for Runner<'a> {
    ghost use Rattle.lx_fhdl.specs.declared.design.Design.{Design};

    ghost Value = { Design };

    ghost use Rattle.lx_running.specs.Parts.{IsRunner};

    ghost view = { λ r. r.design.now };

    ghost invariant = { λ r. IsRunner r.design.now r.names.words r.lowered };
}

/// The names of a circuit without a fault; or its first fault: StorageDriven, TwoDrivers, MemoryClocks, CombLoop, NameTaken; or
/// NotYetBuilt where two ports of memories have one `dat_r`.
#[tactic(auto, using(crate::proofs::Runners::check_refused, crate::proofs::Runners::name_refused, crate::proofs::Runners::not_built, crate::proofs::Runners::named))]
pub fn named(alloc: Global, design: &Design) -> Result<Names, Refusal>
    requires { Keeps design.now }
    ensures { IsNaming design.now result }
{
    check(alloc, design)?;
    let names = names(alloc, design)?;
    let alone = shows_alone(alloc, design)?;
    if !alone {
        return Err(Refusal::Fault(Fault {
            line: 0,
            kind: Kind::NotYetBuilt,
        }));
    }
    Ok(names)
}

// The answers of a circuit without a fault, from a simulator of the circuit with its ports lowered, at its start.
#[tactic(auto, using(crate::proofs::Answering::have_inputs, crate::proofs::Runners::names_long, crate::proofs::Runners::trace_refused, crate::proofs::Runners::lines_fit, crate::proofs::Runners::lines_named, crate::proofs::Runners::answered))]
fn run_on<L: Ledger>(
    alloc: Global,
    design: &Design,
    simulator: &mut Simulator<'_>,
    names: &List<Word>,
    trace: &[u8],
    steps: &mut Steps<L>,
) -> Result<Text, Refusal>
    requires keeps { Keeps design.now }
    requires names { AreNamesOf design.now names.now }
    requires lowered { IsPortsOf design.now simulator.old.design }
    requires start { Shows simulator.old start }
    requires size { length trace.now ≤ 1048576 }
    ensures { AnswersTo design.now trace.now result }
{
    let inputs = inputs(alloc, design, simulator)?;
    let lines = read_trace(alloc, trace, design, names, inputs.as_slice())?;
    let text = run_trace(alloc, simulator, names, lines.as_slice(), steps)?;
    Ok(text)
}

// The same, under a counter of its own.
#[tactic(auto, using(crate::proofs::Runners::order_stays, crate::proofs::Runners::memories_stay))]
fn run<L: Ledger>(
    alloc: Global,
    design: &Design,
    lowered: &Design,
    names: &List<Word>,
    trace: &[u8],
    blank: Blank,
) -> Result<Text, Refusal>
    requires name { blank.name ≡ L.name }
    requires parts { blank.parts ≡ L.parts }
    requires some { 0 < blank.parts }
    requires keeps { Keeps design.now }
    requires names { AreNamesOf design.now names.now }
    requires lowered { IsPortsOf design.now lowered.now }
    requires size { length trace.now ≤ 1048576 }
    ensures { AnswersTo design.now trace.now result }
{
    let mut steps = Steps::<L>::new(blank);
    let mut simulator = Simulator::new(alloc, lowered, &mut steps)?;
    run_on(alloc, design, &mut simulator, names, trace, &mut steps)
}

impl<'a> Runner<'a> {
    /// What runs the circuit of a design; or the circuit's first fault: StorageDriven, TwoDrivers, MemoryClocks, CombLoop,
    /// NameTaken; or NotYetBuilt where two ports of memories have one `dat_r`.
    pub fn new(alloc: Global, design: &'a Design) -> Result<Runner<'a>, Refusal>
        requires { Keeps design.now }
        ensures { Readies design.now result }
    {
        let names = named(alloc, design)?;
        let lowered = lower_ports(alloc, design)?;
        Ok(Runner {
            design,
            names,
            lowered,
        })
    }

    /// What the circuit answers to the bytes of a trace: a line for each `show`, with the steps before it, the name and the
    /// value at that moment; or the first fault of the trace: TraceSyntax, TraceName, TraceValue. Each call begins at the
    /// circuit's start.
    pub fn answers(&self, alloc: Global, trace: &[u8]) -> Result<Text, Refusal>
        requires { length trace.now ≤ 1048576 }
        ensures { AnswersTo self.now trace.now result }
    {
        run::<Brand>(
            alloc,
            self.design,
            &self.lowered,
            self.names.as_list(),
            trace,
            Blank::new(1),
        )
    }
}
