//! Event managers and their sources: what `EventManager` and the sources' calls make, and what is bound to a manager.

ghost use Rattle.std.specs.Prelude.{◌≡◌, IfOk, OnOk, codes, map, pos, slice_get};
ghost use Rattle.lx_description.specs.Wires.{given, source_wires};
ghost use Rattle.lx_state.specs.Changes.{changed};
ghost use Rattle.lx_state.specs.Step.{Gives};
ghost use Rattle.lx_objects.specs.Events.{bind_source, bound_source, free_source, keep_manager, keep_source, manager_made, new_manager, new_source, put_source, some_source, source_count, source_made, source_of, source_of_object, source_of_what, source_parts, with_source};
ghost use Rattle.lx_objects.specs.Registers.{part_of, wire_made, wire_of};

use crate::fsms::{keep_stand_in, one_bit};
use crate::registers::{Pin, Plan, add_plan, pin_reads, pin_signals, wire_made, wires_made};
use crate::signals::new_signal;
use lx_description::SourceKind;
use lx_fhdl::SigId;
use lx_names::Table;
use lx_state::machine::{Binding, Machine, ManagerState, SourceState, What};
use lx_state::values::Value;
use lx_state::work::fault;
use lx_text::{Kind, LimitKind, List, NoMemory, Refusal, Word};
use std::alloc::Global;

// ---- sources

fn source_plans(alloc: Global) -> Result<List<Plan>, NoMemory>
    ensures wires { IfOk result (λ plans. map wire_of plans ≡ source_wires) }
    ensures parts { IfOk result (λ plans. map part_of plans ≡ source_parts) }
{
    let mut plans = List::new(alloc);
    add_plan(alloc, &mut plans, b"trigger", 1, 0, false)?;
    add_plan(alloc, &mut plans, b"status", 1, 0, true)?;
    add_plan(alloc, &mut plans, b"pending", 1, 0, true)?;
    add_plan(alloc, &mut plans, b"clear", 1, 0, true)?;
    Ok(plans)
}

fn new_source(
    alloc: Global,
    object: usize,
    kind: SourceKind,
    pins: &[Pin],
) -> Result<SourceState, NoMemory>
    ensures { IfOk result (λ source. source ≡ new_source object kind pins.now) }
{
    let signals = pin_signals(alloc, pins)?;
    let reads = pin_reads(alloc, pins)?;
    Ok(SourceState {
        object,
        kind,
        signals,
        reads,
        bound: false,
    })
}

#[tactic(auto, unfolding(crate::specs::Events::keep_source))]
fn keep_source(machine: &mut Machine, source: SourceState) -> Result<(), Refusal>
    ensures { Gives result machine.new (keep_source source machine.old) }
{
    machine.sources.push(source)?;
    Ok(())
}

/// Makes a source of events, which no manager has yet, with its signals `trigger`, `status`, `pending` and `clear`.
#[tactic(auto, unfolding(crate::specs::Events::source_made))]
pub fn source_made(
    machine: &mut Machine,
    alloc: Global,
    line: u32,
    kind: SourceKind,
) -> Result<Value, Refusal>
    ensures { Gives result machine.new (source_made line kind machine.old) }
{
    let place = machine.sources.len();
    let object = machine.object_made(What::Source(place), line, None)?;
    let plans = source_plans(alloc)?;
    let pins = wires_made(machine, alloc, line, object, plans.as_slice())?;
    let source = new_source(alloc, object, kind, pins.as_slice())?;
    keep_source(machine, source)?;
    Ok(Value::Object(object))
}

// ---- managers

fn new_manager(alloc: Global, object: usize, place: usize, irq: Pin, enable: SigId) -> ManagerState
    ensures { result ≡ new_manager object place irq enable }
{
    ManagerState {
        object,
        module: place,
        sources: List::new(alloc),
        names: Table::new(alloc),
        irq: irq.signal,
        read: irq.read,
        enable,
    }
}

#[tactic(auto, unfolding(crate::specs::Events::keep_manager))]
fn keep_manager(machine: &mut Machine, manager: ManagerState) -> Result<(), Refusal>
    ensures { Gives result machine.new (keep_manager manager machine.old) }
{
    machine.managers.push(manager)?;
    Ok(())
}

// The signal `irq` of a manager.
fn irq_made(machine: &mut Machine, alloc: Global, line: u32, object: usize) -> Result<Pin, Refusal>
    ensures { Gives result machine.new (wire_made line object (given 1 (pos 0)) (codes "irq") machine.old) }
{
    let name = Word::new(alloc, b"irq")?;
    let plan = Plan {
        name,
        bits: 1,
        reset: 0,
        given: true,
    };
    wire_made(machine, alloc, line, object, &plan)
}

/// Makes an event manager without sources, with its signal `irq`. The value of its register `enable` has one bit until all
/// sources are known.
#[tactic(auto, unfolding(crate::specs::Events::manager_made))]
pub fn manager_made(machine: &mut Machine, alloc: Global, line: u32) -> Result<Value, Refusal>
    ensures { Gives result machine.new (manager_made line machine.old) }
{
    let at = machine.managers.len();
    let object = machine.object_made(What::Manager(at), line, None)?;
    let place = keep_stand_in(machine, alloc, object)?;
    let irq = irq_made(machine, alloc, line, object)?;
    let name = Word::new(alloc, b"enable")?;
    let enable = new_signal(machine, line, one_bit(alloc, 0), object, Some(name))?;
    keep_manager(machine, new_manager(alloc, object, place, irq, enable))?;
    Ok(Value::Object(object))
}

// ---- binding a source to a manager

// The source at a place, where no manager has it yet.
fn free_source(machine: &Machine, at: usize) -> Option<usize>
    ensures { result ≡ free_source at (slice_get machine.now.sources at) }
{
    match machine.sources.get(at) {
        Some(source) => { if source.bound { None } else { Some(at) } }
        None => None,
    }
}

fn source_of_what(machine: &Machine, what: What) -> Option<usize>
    ensures { result ≡ source_of_what machine.now what }
{
    match what {
        What::Source(at) => free_source(machine, at),
        What::Signal(_) | What::Module(_) | What::ClockDomain(_) | What::MultiReg => None,
        What::Fsm(_) | What::Memory(_) | What::Port(_) => None,
        What::Register(_) | What::Field(_) | What::Constant(_) | What::Manager(_) => None,
        What::Region(_) | What::Interface(_) => None,
    }
}

fn source_of_object(machine: &Machine, at: usize) -> Option<usize>
    ensures { result ≡ source_of_object machine.now (slice_get machine.now.objects at) }
{
    match machine.objects.get(at) {
        Some(object) => source_of_what(machine, object.what),
        None => None,
    }
}

/// The source that a value is, where no manager has it yet.
pub fn source_of(machine: &Machine, value: Value) -> Option<usize>
    ensures { result ≡ source_of machine.now value }
{
    match value {
        Value::Object(at) => source_of_object(machine, at),
        _ => None,
    }
}

#[tactic(auto, unfolding(crate::specs::Events::some_source))]
fn some_source(machine: &Machine, line: u32, value: Value) -> Result<usize, Refusal>
    ensures { Gives result machine.now (some_source line value machine.now) }
{
    match source_of(machine, value) {
        Some(at) => Ok(at),
        None => Err(fault(line, Kind::WrongKind)),
    }
}

fn source_count(machine: &Machine, at: usize) -> usize
    ensures { result ≡ source_count (slice_get machine.now.managers at) }
{
    match machine.managers.get(at) {
        Some(manager) => manager.sources.len(),
        None => 0,
    }
}

// A manager that stands for another, while that one is changed.
fn no_manager(alloc: Global, other: &ManagerState) -> ManagerState {
    let irq = Pin {
        signal: other.irq,
        read: other.read,
    };
    new_manager(alloc, 0, 0, irq, other.enable)
}

// Binds a source to the manager at a place.
#[tactic(auto, using(lx_state::proofs::Changes::changed_there, lx_state::proofs::Changes::set_twice, lx_state::proofs::Changes::not_changed))]
fn push_source(
    alloc: Global,
    managers: &mut List<ManagerState>,
    at: usize,
    name: &[u8],
    source: usize,
) -> Result<(), NoMemory>
    ensures { OnOk result (managers.new ≡ changed managers.old at (with_source name.now source)) }
{
    if at < managers.len() {
        let hole = no_manager(alloc, managers.at(at));
        let mut manager = managers.replace(at, hole);
        manager.sources.push(source)?;
        manager.names.set(name, source)?;
        managers.replace(at, manager);
    }
    Ok(())
}

fn no_source(alloc: Global) -> SourceState {
    SourceState {
        object: 0,
        kind: SourceKind::Level,
        signals: List::new(alloc),
        reads: List::new(alloc),
        bound: false,
    }
}

// The source at a place is bound.
#[tactic(auto, using(lx_state::proofs::Changes::changed_there, lx_state::proofs::Changes::set_twice, lx_state::proofs::Changes::not_changed))]
fn note_bound(alloc: Global, sources: &mut List<SourceState>, at: usize)
    ensures { sources.new ≡ changed sources.old at bound_source }
{
    if at < sources.len() {
        let mut source = sources.replace(at, no_source(alloc));
        source.bound = true;
        sources.replace(at, source);
    }
}

#[tactic(auto, unfolding(crate::specs::Events::put_source))]
fn put_source(
    machine: &mut Machine,
    alloc: Global,
    at: usize,
    name: &[u8],
    source: usize,
) -> Result<(), Refusal>
    ensures { Gives result machine.new (put_source at name.now source machine.old) }
{
    push_source(alloc, &mut machine.managers, at, name, source)?;
    note_bound(alloc, &mut machine.sources, source);
    Ok(())
}

/// Binds a source to the manager at a place, which names it: sources alone, each to one manager once, and no more than the
/// limit.
#[tactic(auto, unfolding(crate::specs::Events::bind_source))]
pub fn bind_source(
    machine: &mut Machine,
    alloc: Global,
    line: u32,
    at: usize,
    name: &[u8],
    value: Value,
) -> Result<(), Refusal>
    ensures { Gives result machine.new (bind_source line at name.now value machine.old) }
{
    let source = some_source(machine, line, value)?;
    let count = source_count(machine, at);
    machine.one_more(line, LimitKind::Sources, count)?;
    machine.name_fits(line, name)?;
    machine.bind_name(alloc, Binding::Attribute, name, value)?;
    put_source(machine, alloc, at, name, source)
}
