//! The texts of a command are made, before anything is stored.

ghost use Rattle.std.specs.Prelude.{◌≡◌, ◌≤◌, ℕ, List, [], length};
ghost use Rattle.lx_text.specs.declared.faults.Fault.{Fault};
ghost use Rattle.lx_fhdl.specs.Keeping.{Keeps};
ghost use Rattle.lx_description.specs.Keeping.{KeepsDescription};
ghost use Rattle.lx_fsm.specs.Flattened.{CanFlatten, fsm_faults};
ghost use Rattle.lx_command.specs.Commands.{Build, Sim, asked_of};
ghost use Rattle.lx_command.specs.Next.{Refuses};
ghost use Rattle.lx_top.specs.Making.{Builds, Describes, DescribesFile, Ends, EndsLater, Flattened, Judges, Makes, Modules, Reads, RefusesSystem, Runs, RunsBytes, RunsCircuit, RunsFile, Writes};
ghost use Rattle.lx_top.specs.Table.{Step};

use crate::files::files_of_module;
use crate::listing::list;
use crate::modules::is_module;
use lx_command::commands::Command;
use lx_command::fetching::{Stop, fetch, not_built, whole};
use lx_command::judging::judge;
use lx_command::texts::{Texts, summary_of};
use lx_description::Description;
use lx_elab::elaborate;
use lx_fsm::without_fsms;
use lx_outside::Source;
use lx_running::Runner;
use lx_soc::survey;
use lx_text::{Kind, List, Refusal, Text};
use lx_translate::top_v;
use std::alloc::Global;

/// The texts of a command. One that isn't built yet touches no file.
#[tactic(auto, using(crate::proofs::Endings::makes_poke, crate::proofs::Endings::makes_gen))]
pub fn make<'a, S: Source>(
    alloc: Global,
    command: Command<'a>,
    src: &mut S,
) -> Result<Texts, Stop<'a>>
    ensures makes { Makes (asked_of command.entry) (S.files src.old) (S.faults src.old) (S.faults src.new) result }
    ensures quiet { (file : List ℕ) (f : Fault) → Step (asked_of command.entry) [] (Refuses file f) → src.new ≡ src.old }
{
    match command {
        Command::Build(source) => build(alloc, source, src),
        Command::Map(source) => list(alloc, source, src),
        Command::Sim(source, trace) => simulate(alloc, source, trace, src),
        Command::Poke(_, _) => Err(not_built(b"poke")),
        Command::Gen(_) => Err(not_built(b"gen")),
    }
}

// The texts of the description of this name.
#[tactic(auto, using(crate::proofs::Endings::makes_from, crate::proofs::Endings::makes_none))]
fn build<'a, S: Source>(alloc: Global, source: &'a [u8], src: &mut S) -> Result<Texts, Stop<'a>>
    ensures { Makes (Build source.now) (S.files src.old) (S.faults src.old) (S.faults src.new) result }
{
    match fetch(alloc, source, src) {
        Ok(bytes) => describe_file(alloc, source, bytes.as_slice()),
        Err(stop) => Err(stop),
    }
}

// The texts of a file's bytes, or the fault of the file.
#[tactic(auto, using(crate::proofs::Endings::gives_file, crate::proofs::Endings::refuses_file))]
fn describe_file<'a>(alloc: Global, name: &'a [u8], bytes: &[u8]) -> Result<Texts, Stop<'a>>
    ensures { DescribesFile name.now bytes.now result }
{
    match describe(alloc, bytes) {
        Ok(texts) => Ok(texts),
        Err(Refusal::Fault(fault)) => Err(Stop::Fault(name, fault)),
        Err(Refusal::NoMemory) => Err(Stop::NoMemory),
    }
}

// The texts of a description's bytes; or the first fault of its text, of what it describes, or of its circuit.
#[tactic(auto, using(crate::proofs::Endings::not_read, crate::proofs::Endings::described, crate::proofs::Reading::module_keeps))]
fn describe(alloc: Global, bytes: &[u8]) -> Result<Texts, Refusal>
    ensures { Describes bytes.now result }
{
    let flat = read_module(alloc, bytes)?;
    texts_of(alloc, flat)
}

// The texts of a module; or the fault of its circuit.
#[tactic(auto, using(crate::proofs::Endings::built_from, crate::proofs::Endings::not_written))]
fn texts_of(alloc: Global, flat: Description) -> Result<Texts, Refusal>
    requires { Keeps flat.design }
    ensures { Builds flat result }
{
    let (written, text) = written_of(alloc, &flat)?;
    let files = files_of_module(alloc, written, flat)?;
    Ok(Texts { files, text })
}

// The text of a module, and what is said of it; or the fault of its circuit.
#[tactic(auto, using(crate::proofs::Endings::not_translated))]
fn written_of(alloc: Global, flat: &Description) -> Result<(Text, Text), Refusal>
    requires { Keeps flat.now.design }
    ensures { Writes flat.now result }
{
    let written = top_v(alloc, &flat.design)?;
    let text = summary_of(alloc, flat.top.as_bytes())?;
    Ok((written, text))
}

// ---- modules

// The module that a description's bytes describe, with the statements of its FSMs in their places; or the first fault of its
// text or of what it describes, or that it isn't built yet.
#[tactic(auto, using(crate::proofs::Reading::text_fault, crate::proofs::Reading::said_fault, crate::proofs::Reading::read, crate::proofs::Flat::no_fsm_faults))]
fn read_module(alloc: Global, bytes: &[u8]) -> Result<Description, Refusal>
    ensures { Reads bytes.now result }
{
    let tree = judge(alloc, bytes)?;
    let description = elaborate(alloc, bytes, &tree)?;
    judged(alloc, description)
}

// The description as a module; a system is refused.
#[tactic(auto, using(crate::proofs::Systems::system_refused, crate::proofs::Systems::module_judged))]
fn judged(alloc: Global, description: Description) -> Result<Description, Refusal>
    requires whole { KeepsDescription description }
    requires can { CanFlatten description }
    requires faultless { fsm_faults description ≡ [] }
    ensures { Judges description result }
{
    if description.soc {
        return Err(refuse_system(alloc, description));
    }
    module_of(alloc, description)
}

// Why a system isn't built: the first fault of its registers or places, or that it isn't built yet.
#[tactic(auto, using(crate::proofs::Systems::not_surveyed, crate::proofs::Systems::surveyed))]
fn refuse_system(alloc: Global, description: Description) -> Refusal
    requires { KeepsDescription description }
    ensures { RefusesSystem description result }
{
    match survey(alloc, description) {
        Ok(_) => Refusal::Fault(whole(Kind::NotYetBuilt)),
        Err(refusal) => refusal,
    }
}

// The description with the statements of its FSMs in their places; or that its parts are not built yet.
#[tactic(auto, using(crate::proofs::Reading::no_module, crate::proofs::Reading::not_flat))]
pub(crate) fn module_of(alloc: Global, description: Description) -> Result<Description, Refusal>
    requires can { CanFlatten description }
    requires faultless { fsm_faults description ≡ [] }
    ensures { Modules description result }
{
    let flat = flat_of(alloc, description)?;
    if !is_module(&flat) {
        return Err(Refusal::Fault(whole(Kind::NotYetBuilt)));
    }
    Ok(flat)
}

// The description with the statements of its FSMs in their places.
#[tactic(auto, using(crate::proofs::Flat::flat_made))]
fn flat_of(alloc: Global, description: Description) -> Result<Description, Refusal>
    requires can { CanFlatten description }
    requires faultless { fsm_faults description ≡ [] }
    ensures { Flattened description result }
{
    without_fsms(alloc, description)
}

// ---- sim

// The answers of the description of this name to the trace of this name. The trace is loaded once the description has no fault.
#[tactic(auto, using(crate::proofs::Simulating::sim_from, crate::proofs::Simulating::sim_none))]
fn simulate<'a, S: Source>(
    alloc: Global,
    source: &'a [u8],
    trace: &'a [u8],
    src: &mut S,
) -> Result<Texts, Stop<'a>>
    ensures { Makes (Sim source.now trace.now) (S.files src.old) (S.faults src.old) (S.faults src.new) result }
{
    match fetch(alloc, source, src) {
        Ok(bytes) => run_bytes(alloc, source, bytes.as_slice(), trace, src),
        Err(stop) => Err(stop),
    }
}

// The answers of a description's bytes.
#[tactic(auto, using(crate::proofs::Simulating::bytes_run, crate::proofs::Simulating::bytes_refused, crate::proofs::Reading::module_keeps))]
fn run_bytes<'a, S: Source>(
    alloc: Global,
    source: &'a [u8],
    bytes: &[u8],
    trace: &'a [u8],
    src: &mut S,
) -> Result<Texts, Stop<'a>>
    ensures { EndsLater (RunsBytes (S.files src.old) source.now trace.now bytes.now) (S.files src.old) (S.faults src.old) (S.faults src.new) result }
{
    match read_module(alloc, bytes) {
        Ok(flat) => run_module(alloc, source, &flat, trace, src),
        Err(Refusal::Fault(fault)) => Err(Stop::Fault(source, fault)),
        Err(Refusal::NoMemory) => Err(Stop::NoMemory),
    }
}

// The answers of a module.
#[tactic(auto, using(crate::proofs::Simulating::circuit_run, crate::proofs::Simulating::circuit_refused))]
fn run_module<'a, S: Source>(
    alloc: Global,
    source: &'a [u8],
    flat: &Description,
    trace: &'a [u8],
    src: &mut S,
) -> Result<Texts, Stop<'a>>
    requires { Keeps flat.now.design }
    ensures { EndsLater (RunsCircuit (S.files src.old) source.now trace.now flat.now.design) (S.files src.old) (S.faults src.old) (S.faults src.new) result }
{
    match Runner::new(alloc, &flat.design) {
        Ok(runner) => run_file(alloc, &runner, trace, src),
        Err(Refusal::Fault(fault)) => Err(Stop::Fault(source, fault)),
        Err(Refusal::NoMemory) => Err(Stop::NoMemory),
    }
}

// The answers of a circuit to the trace of this name.
#[tactic(auto, using(crate::proofs::Simulating::loaded, crate::proofs::Simulating::not_loaded))]
fn run_file<'a, S: Source>(
    alloc: Global,
    runner: &Runner<'_>,
    trace: &'a [u8],
    src: &mut S,
) -> Result<Texts, Stop<'a>>
    ensures { EndsLater (RunsFile (S.files src.old) runner.now trace.now) (S.files src.old) (S.faults src.old) (S.faults src.new) result }
{
    match fetch(alloc, trace, src) {
        Ok(lines) => run_lines(alloc, runner, trace, lines.as_slice()),
        Err(stop) => Err(stop),
    }
}

// The answers of a circuit to the lines of the trace of this name.
#[tactic(auto, using(crate::proofs::Simulating::lines_run, crate::proofs::Simulating::lines_refused))]
fn run_lines<'a>(
    alloc: Global,
    runner: &Runner<'_>,
    trace: &'a [u8],
    lines: &[u8],
) -> Result<Texts, Stop<'a>>
    requires { length lines.now ≤ 1048576 }
    ensures { Ends (Runs runner.now trace.now lines.now) result }
{
    match runner.answers(alloc, lines) {
        Ok(text) => Ok(Texts {
            files: List::new(alloc),
            text,
        }),
        Err(Refusal::Fault(fault)) => Err(Stop::Fault(trace, fault)),
        Err(Refusal::NoMemory) => Err(Stop::NoMemory),
    }
}
