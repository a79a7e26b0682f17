//! The description of a machine in which the top was made.

ghost use Rattle.std.specs.Prelude.{◌≡◌, [], IfOk, OnOk, codes, slice_get, true};
ghost use Rattle.lx_objects.specs.Modules.{some_attribute};
ghost use Rattle.lx_describe.specs.Answers.{Answers, answer};
ghost use Rattle.lx_describe.specs.Apart.{all_apart};
ghost use Rattle.lx_describe.specs.Describing.{described, description_of, design_of, is_soc, is_system, named_of, outline_of, top_ios, top_of};
ghost use Rattle.lx_describe.specs.Modules.{module_decls};
ghost use Rattle.lx_describe.specs.Order.{in_order};
ghost use Rattle.lx_fhdl.specs.Drafts.{DraftKeeps};
ghost use Rattle.lx_kept.specs.Given.{HasArenas};
ghost use Rattle.lx_state.specs.Step.{Gives};

use crate::apart::late_apart;
use crate::fsms::all_fsms;
use crate::managers::all_have_sources;
use crate::memories::{named_memories, ports_of};
use crate::modules::{module_decls, module_text};
use crate::order::in_order;
use crate::signals::named_signals;
use crate::systems::{Declared, declared_by, no_system};
use lx_description::{Description, FsmDecl, FsmStmts, ModuleDecl};
use lx_fhdl::{Design, Domain, Memory, Port, SigId, Signal};
use lx_fragments::domains::{domains_made, mentions};
use lx_fragments::fragments::{Fragments, fragments_of};
use lx_objects::ios::ios_of;
use lx_objects::modules::module_of;
use lx_shaped::Shaped;
use lx_state::machine::{Machine, ModuleKind};
use lx_state::values::Value;
use lx_state::work::fault;
use lx_text::{Kind, List, NoMemory, Refusal};
use std::alloc::Global;
use std::mem;

// ---- the top

// The module that is the top.
#[tactic(auto, unfolding(crate::specs::Describing::top_of))]
fn top_of(machine: &Machine, value: Value) -> Result<usize, Refusal>
    ensures { Gives result machine.now (top_of value machine.now) }
{
    match module_of(machine, value) {
        Some(top) => Ok(top),
        None => Err(fault(0, Kind::WrongKind)),
    }
}

fn is_soc(kind: ModuleKind) -> bool
    ensures { result ≡ is_soc kind }
{
    match kind {
        ModuleKind::Soc => true,
        ModuleKind::Plain | ModuleKind::Lite => false,
    }
}

// Whether a module is a system.
fn is_system(machine: &Machine, at: usize) -> bool
    ensures { result ≡ is_system (slice_get machine.now.modules at) }
{
    match machine.modules.get(at) {
        Some(module) => is_soc(module.kind),
        None => false,
    }
}

// ---- its ports

fn bound_ios(machine: &Machine, top: usize) -> Option<Value>
    ensures { result ≡ some_attribute (codes "ios") (slice_get machine.now.modules top) }
{
    match machine.modules.get(top) {
        Some(module) => module.attributes.get(b"ios"),
        None => None,
    }
}

// The signals of the last list that the top bound to `ios`.
#[tactic(auto, unfolding(crate::specs::Describing::top_ios))]
fn top_ios(machine: &Machine, alloc: Global, top: usize) -> Result<List<SigId>, Refusal>
    ensures { Gives result machine.now (top_ios top machine.now) }
{
    match bound_ios(machine, top) {
        Some(value) => ios_of(machine, alloc, 0, value),
        None => Ok(List::new(alloc)),
    }
}

// ---- the description

/// What makes a design of what stands in a machine.
#[derive(Drop)]
pub struct Outline {
    /// The place of the top.
    pub top: usize,
    pub ios: List<SigId>,
    pub fragments: Fragments,
    pub domains: List<Domain>,
    pub fsms: List<FsmDecl>,
}

// The resets of the domains are the last signals.
#[tactic(auto, unfolding(crate::specs::Describing::outline_of))]
fn outline_of(machine: &mut Machine, alloc: Global, value: Value) -> Result<Outline, Refusal>
    ensures { Gives result machine.new (outline_of value machine.old) }
{
    let top = top_of(machine, value)?;
    all_have_sources(machine)?;
    let ios = top_ios(machine, alloc, top)?;
    let fragments = fragments_of(machine, alloc, top)?;
    let mentioned = mentions(machine, alloc)?;
    let domains = domains_made(machine, alloc, mentioned.as_slice())?;
    let fsms = all_fsms(machine, alloc, top)?;
    Ok(Outline {
        top,
        ios,
        fragments,
        domains,
        fsms,
    })
}

/// The signals and memories of a design, with their paths, and the ports of the memories.
#[derive(Drop)]
pub struct Named {
    pub signals: List<Signal>,
    pub memories: List<Memory>,
    pub ports: List<Port>,
}

// What has a path. The memories are taken out of the machine.
fn named_of(machine: &mut Machine, alloc: Global) -> Result<Named, NoMemory>
    ensures named { IfOk result (λ named. named ≡ named_of machine.old) }
    ensures rest { OnOk result (machine.new ≡ record machine.old { memories = [] }) }
{
    let signals = named_signals(machine, alloc)?;
    let ports = ports_of(machine, alloc)?;
    let memories = named_memories(machine, alloc)?;
    Ok(Named {
        signals,
        memories,
        ports,
    })
}

// A design of a draft with these signals and memories.
fn design_of(
    shaped: Shaped,
    named: Named,
    fragments: Fragments,
    domains: List<Domain>,
    ios: List<SigId>,
) -> Design
    ensures is { result ≡ design_of shaped named fragments domains ios }
    ensures keeps { DraftKeeps shaped }
{
    let Named {
        signals,
        memories,
        ports,
    } = named;
    let Fragments { comb, sync } = fragments;
    let design = shaped.finish(comb, sync, domains, ports, ios);
    Design {
        signals,
        memories,
        ..design
    }
}

// What all modules declare.
fn all_decls(machine: &Machine, alloc: Global, top: usize) -> Result<List<ModuleDecl>, NoMemory>
    ensures { IfOk result (λ decls. decls ≡ module_decls machine.now (in_order machine.now top)) }
{
    let all = in_order(machine, alloc, top)?;
    module_decls(machine, alloc, all.as_slice())
}

// Takes the design out of the machine.
fn description_of(
    machine: &mut Machine,
    alloc: Global,
    outline: Outline,
) -> Result<Description, NoMemory>
    requires { all_apart machine.old ≡ true }
    ensures is { IfOk result (λ description. description ≡ description_of machine.old outline) }
    ensures arenas { IfOk result (λ description. HasArenas description.design) }
{
    let Outline {
        top,
        ios,
        fragments,
        domains,
        fsms,
    } = outline;
    let name = module_text(machine, alloc, top)?;
    let modules = all_decls(machine, alloc, top)?;
    let named = named_of(machine, alloc)?;
    let soc = is_system(machine, top);
    let system = mem::replace(&mut machine.system, no_system(alloc));
    let declared = declared_by(alloc, soc, system)?;
    let fsm_stmts = mem::replace(&mut machine.fsm_stmts, FsmStmts::new(alloc));
    let shaped = mem::replace(&mut machine.shaped, Shaped::new(alloc));
    let design = design_of(shaped, named, fragments, domains, ios);
    let Declared {
        slaves,
        wishes,
        constants,
    } = declared;
    Ok(Description {
        top: name,
        soc,
        design,
        modules,
        slaves,
        wishes,
        constants,
        fsm_stmts,
        fsms,
    })
}

/// The description of a machine whose top is this value; the arenas of its design keep what a design's arenas keep. The
/// machine is spent.
#[tactic(auto, using(crate::proofs::Answering::answer_stopped), unfolding(crate::specs::Describing::described))]
pub fn described(machine: &mut Machine, alloc: Global, value: Value) -> Result<Description, Refusal>
    ensures answers { Answers result (answer (described value machine.old)) }
    ensures arenas { IfOk result (λ description. HasArenas description.design) }
{
    let outline = outline_of(machine, alloc, value)?;
    late_apart(machine)?;
    let description = description_of(machine, alloc, outline)?;
    Ok(description)
}
