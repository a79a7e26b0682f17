//! Systems: the ports of their bus, the places that they wish for, what answers there, and their constants (LiteX's SoC
//! builder).

ghost use Rattle.std.specs.Prelude.{◌≡◌, ◌≤◌, IfOk, Ok, map, slice_get};
ghost use Rattle.lx_description.specs.Wires.{bus_ports, interface_wires};
ghost use Rattle.lx_state.specs.Changes.{changed};
ghost use Rattle.lx_state.specs.Step.{Gives};
ghost use Rattle.lx_objects.specs.Memories.{word_of};
ghost use Rattle.lx_objects.specs.Registers.{part_of, wire_of};
ghost use Rattle.lx_objects.specs.Systems.{add_region, bank_added, constant_added, free_signals, hand_over, handed_over, interface_made, interface_parts, interrupt_added, keep_interface, keep_region, new_interface, plain_wire, port_made, ports_made, region_made, set_base, slave_added, some_signals, store_made, store_of, system_begun, words_of};

use crate::domains::declare;
use crate::memories::{count_fits, memory_count, spend_words, word_of};
use crate::registers::{Pin, Plan, add_plan, pin_reads, pin_signals, wires_made};
use crate::signals::signal_made;
use lx_description::{ConstDecl, ConstValue, SlaveDecl, SlaveKind};
use lx_fhdl::{Fix, RegionWish, SigId, Signal};
use lx_num::Shape;
use lx_state::lists::copied;
use lx_state::machine::{InterfaceState, Machine, RegionState, What};
use lx_state::values::Value;
use lx_state::work::fault;
use lx_text::{Kind, LimitKind, List, NoMemory, Refusal, Word};
use std::alloc::Global;

// ---- how a system begins

// Makes a port of the bus. No line of the text makes it.
#[tactic(auto, unfolding(crate::specs::Systems::port_made))]
fn port_made(machine: &mut Machine, alloc: Global, name: &[u8], bits: u8) -> Result<Value, Refusal>
    ensures { Gives result machine.new (port_made (record { name = name.now; bits = bits }) machine.old) }
{
    let signal = Signal {
        path: List::new(alloc),
        shape: Shape {
            bits,
            signed: false,
        },
        reset: 0,
        reset_less: false,
        by_bus: false,
        line: 0,
    };
    let name = Word::new(alloc, name)?;
    signal_made(machine, 0, signal, Some(name))
}

// Makes the ports of the bus, in their order.
#[tactic(auto, unfolding(crate::specs::Systems::ports_made, lx_description::specs::Wires::bus_ports))]
fn ports_made(machine: &mut Machine, alloc: Global) -> Result<(), Refusal>
    ensures { Gives result machine.new (ports_made bus_ports machine.old) }
{
    port_made(machine, alloc, b"wb_adr", 30)?;
    port_made(machine, alloc, b"wb_dat_w", 32)?;
    port_made(machine, alloc, b"wb_sel", 4)?;
    port_made(machine, alloc, b"wb_cyc", 1)?;
    port_made(machine, alloc, b"wb_stb", 1)?;
    port_made(machine, alloc, b"wb_we", 1)?;
    port_made(machine, alloc, b"wb_dat_r", 32)?;
    port_made(machine, alloc, b"wb_ack", 1)?;
    port_made(machine, alloc, b"wb_err", 1)?;
    port_made(machine, alloc, b"irq", 32)?;
    Ok(())
}

/// Begins a system: with the ports of its bus, and with the domain `sys`, which has a reset whatever the text declares.
#[tactic(auto, unfolding(crate::specs::Systems::system_begun))]
pub fn system_begun(machine: &mut Machine, alloc: Global) -> Result<(), Refusal>
    ensures { Gives result machine.new (system_begun machine.old) }
{
    ports_made(machine, alloc)?;
    declare(machine, 0, b"sys", true)
}

/// The address of a system's registers, as `super().__init__` states it.
#[tactic(auto, unfolding(crate::specs::Systems::set_base))]
pub fn set_base(machine: &mut Machine, line: u32, base: u64) -> Result<Value, Refusal>
    ensures { Gives result machine.new (set_base line base machine.old) }
{
    machine.system.base = base;
    machine.system.line = line;
    Ok(Value::Nothing)
}

// ---- regions

/// Makes a `SoCRegion`, which is no region of the bus yet.
#[tactic(auto, unfolding(crate::specs::Systems::region_made))]
pub fn region_made(machine: &mut Machine, line: u32, region: RegionState) -> Result<Value, Refusal>
    ensures { Gives result machine.new (region_made line region machine.old) }
{
    let place = machine.regions.len();
    let object = machine.object_made(What::Region(place), line, None)?;
    machine.regions.push(region)?;
    Ok(Value::Object(object))
}

#[tactic(auto, unfolding(crate::specs::Systems::keep_region))]
fn keep_region(machine: &mut Machine, wish: RegionWish, slave: SlaveDecl) -> Result<(), Refusal>
    ensures { Gives result machine.new (keep_region wish slave machine.old) }
{
    machine.system.regions.push(wish)?;
    machine.system.slaves.push(slave)?;
    Ok(())
}

// Adds a region, and what answers there. That of the registers is one too.
#[tactic(auto, unfolding(crate::specs::Systems::add_region))]
fn add_region(
    machine: &mut Machine,
    alloc: Global,
    line: u32,
    name: Word,
    region: RegionState,
    answers: SlaveKind,
) -> Result<Value, Refusal>
    ensures { Gives result machine.new (add_region line name region answers machine.old) }
{
    let count = machine.system.regions.len() as u128 + 1;
    count_fits(machine, line, LimitKind::Regions, count)?;
    let slave = SlaveDecl {
        name: name.copied(alloc)?,
        kind: answers,
        line,
    };
    let wish = RegionWish {
        name,
        origin: region.origin,
        size: region.size,
        cached: region.cached,
        line,
    };
    keep_region(machine, wish, slave)?;
    Ok(Value::Nothing)
}

// ---- memories on the bus

/// The words of 32 bits that hold so many bytes.
pub fn words_of(size: u64) -> u32
    requires { size ≤ 262144 }
    ensures { result ≡ words_of size }
{
    ((size + 3) / 4) as u32
}

fn words_32(alloc: Global, contents: &[i128]) -> Result<List<u32>, NoMemory>
    ensures { IfOk result (λ words. words ≡ map (word_of 32) contents.now) }
{
    let mut words = List::new(alloc);
    for content in contents {
        words.push(word_of(32, *content) as u32)?;
    }
    Ok(words)
}

fn store_of(writes: bool, words: List<u32>) -> SlaveKind
    ensures { result ≡ store_of writes words }
{
    if writes {
        SlaveKind::Ram(words)
    } else {
        SlaveKind::Rom(words)
    }
}

/// Makes a memory that answers on the bus, with its region: one that the bus may write, or one that it may not.
#[tactic(auto, unfolding(crate::specs::Systems::store_made))]
pub fn store_made(
    machine: &mut Machine,
    alloc: Global,
    line: u32,
    writes: bool,
    name: Word,
    origin: Option<u64>,
    size: u64,
    contents: &[i128],
) -> Result<Value, Refusal>
    requires { size ≤ 262144 }
    ensures { Gives result machine.new (store_made line writes name origin size contents.now machine.old) }
{
    let count = memory_count(machine);
    count_fits(machine, line, LimitKind::Memories, count)?;
    spend_words(machine, line, words_of(size))?;
    let region = RegionState {
        origin,
        size,
        cached: true,
    };
    let words = words_32(alloc, contents)?;
    add_region(machine, alloc, line, name, region, store_of(writes, words))
}

// ---- interfaces

fn interface_plans(alloc: Global) -> Result<List<Plan>, NoMemory>
    ensures wires { IfOk result (λ plans. map wire_of plans ≡ map plain_wire interface_wires) }
    ensures parts { IfOk result (λ plans. map part_of plans ≡ interface_parts) }
{
    let mut plans = List::new(alloc);
    add_plan(alloc, &mut plans, b"adr", 30, 0, false)?;
    add_plan(alloc, &mut plans, b"dat_w", 32, 0, false)?;
    add_plan(alloc, &mut plans, b"dat_r", 32, 0, false)?;
    add_plan(alloc, &mut plans, b"sel", 4, 0, false)?;
    add_plan(alloc, &mut plans, b"cyc", 1, 0, false)?;
    add_plan(alloc, &mut plans, b"stb", 1, 0, false)?;
    add_plan(alloc, &mut plans, b"we", 1, 0, false)?;
    add_plan(alloc, &mut plans, b"ack", 1, 0, false)?;
    add_plan(alloc, &mut plans, b"err", 1, 0, false)?;
    Ok(plans)
}

fn new_interface(alloc: Global, pins: &[Pin]) -> Result<InterfaceState, NoMemory>
    ensures { IfOk result (λ interface. interface ≡ new_interface pins.now) }
{
    let signals = pin_signals(alloc, pins)?;
    let reads = pin_reads(alloc, pins)?;
    Ok(InterfaceState {
        signals,
        reads,
        handed: false,
    })
}

#[tactic(auto, unfolding(crate::specs::Systems::keep_interface))]
fn keep_interface(machine: &mut Machine, interface: InterfaceState) -> Result<(), Refusal>
    ensures { Gives result machine.new (keep_interface interface machine.old) }
{
    machine.interfaces.push(interface)?;
    Ok(())
}

/// Makes an interface of the bus: nine signals, which nothing gives before it is handed over.
#[tactic(auto, unfolding(crate::specs::Systems::interface_made))]
pub fn interface_made(machine: &mut Machine, alloc: Global, line: u32) -> Result<Value, Refusal>
    ensures { Gives result machine.new (interface_made line machine.old) }
{
    let place = machine.interfaces.len();
    let object = machine.object_made(What::Interface(place), line, None)?;
    let plans = interface_plans(alloc)?;
    let pins = wires_made(machine, alloc, line, object, plans.as_slice())?;
    let interface = new_interface(alloc, pins.as_slice())?;
    keep_interface(machine, interface)?;
    Ok(Value::Object(object))
}

// The signals of the interface at a place, where it was not handed over.
fn free_signals(
    machine: &Machine,
    alloc: Global,
    at: usize,
) -> Result<Option<List<SigId>>, NoMemory>
    ensures { IfOk result (λ signals. signals ≡ free_signals (slice_get machine.now.interfaces at)) }
{
    match machine.interfaces.get(at) {
        Some(interface) => {
            if interface.handed {
                Ok(None)
            } else {
                Ok(Some(copied(alloc, &interface.signals)?))
            }
        }
        None => Ok(None),
    }
}

#[tactic(auto, unfolding(crate::specs::Systems::some_signals))]
fn some_signals(
    machine: &Machine,
    alloc: Global,
    line: u32,
    at: usize,
) -> Result<List<SigId>, Refusal>
    ensures { Gives result machine.now (some_signals line at machine.now) }
{
    match free_signals(machine, alloc, at)? {
        Some(signals) => Ok(signals),
        None => Err(fault(line, Kind::WrongKind)),
    }
}

fn no_interface(alloc: Global) -> InterfaceState {
    InterfaceState {
        signals: List::new(alloc),
        reads: List::new(alloc),
        handed: false,
    }
}

// The interface at a place is handed to the bus.
#[tactic(auto, using(lx_state::proofs::Changes::changed_there, lx_state::proofs::Changes::set_twice, lx_state::proofs::Changes::not_changed))]
fn note_handed(alloc: Global, interfaces: &mut List<InterfaceState>, at: usize)
    ensures { interfaces.new ≡ changed interfaces.old at handed_over }
{
    if at < interfaces.len() {
        let mut interface = interfaces.replace(at, no_interface(alloc));
        interface.handed = true;
        interfaces.replace(at, interface);
    }
}

#[tactic(auto, unfolding(crate::specs::Systems::hand_over))]
fn hand_over(machine: &mut Machine, alloc: Global, at: usize)
    ensures { hand_over at machine.old ≡ Ok (tt, machine.new) }
{
    note_handed(alloc, &mut machine.interfaces, at);
}

/// Hands the interface at a place to the bus, which reaches it in this region. One that was handed over before is WrongKind.
#[tactic(auto, unfolding(crate::specs::Systems::slave_added))]
pub fn slave_added(
    machine: &mut Machine,
    alloc: Global,
    line: u32,
    name: Word,
    at: usize,
    region: RegionState,
) -> Result<Value, Refusal>
    ensures { Gives result machine.new (slave_added line name at region machine.old) }
{
    let signals = some_signals(machine, alloc, line, at)?;
    hand_over(machine, alloc, at);
    add_region(machine, alloc, line, name, region, SlaveKind::User(signals))
}

// ---- numbers and constants

/// A number is wished for a bank (`csr.add`).
#[tactic(auto, unfolding(crate::specs::Systems::bank_added))]
pub fn bank_added(machine: &mut Machine, wish: Fix) -> Result<Value, Refusal>
    ensures { Gives result machine.new (bank_added wish machine.old) }
{
    machine.system.fixes.push(wish)?;
    Ok(Value::Nothing)
}

/// An interrupt is wished for (`irq.add`).
#[tactic(auto, unfolding(crate::specs::Systems::interrupt_added))]
pub fn interrupt_added(machine: &mut Machine, wish: Fix) -> Result<Value, Refusal>
    ensures { Gives result machine.new (interrupt_added wish machine.old) }
{
    machine.system.irqs.push(wish)?;
    Ok(Value::Nothing)
}

/// A constant for software is added (`add_constant`).
#[tactic(auto, unfolding(crate::specs::Systems::constant_added))]
pub fn constant_added(
    machine: &mut Machine,
    line: u32,
    name: Word,
    value: ConstValue,
) -> Result<Value, Refusal>
    ensures { Gives result machine.new (constant_added line name value machine.old) }
{
    machine
        .system
        .constants
        .push(ConstDecl { name, value, line })?;
    Ok(Value::Nothing)
}
