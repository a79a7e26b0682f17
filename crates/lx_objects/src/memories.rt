//! Memories: what `Memory` makes, and what its method `get_port` makes.

ghost use Rattle.std.specs.Prelude.{◌≡◌, ◌≤◌, ◌/◌, ◌^◌, map, slice_get, IfOk};
ghost use Rattle.lx_state.specs.Step.{Gives};
ghost use Rattle.lx_state.specs.Work.{one_more};
ghost use Rattle.lx_objects.specs.Memories.{address_bits, extent_of, is_store, keep_memory, keep_port, memory_count, memory_made, mention_some, new_memory, new_port, pin_made, port_domain, port_made, port_signal, port_with_pins, some_extent, spend_words, stores, word_of, works_in_domain, write_pins, write_pins_made};

use crate::domains::mention;
use crate::exprs::put_expr;
use crate::registers::Pin;
use crate::signals::new_signal;
use lx_description::{SlaveDecl, SlaveKind};
use lx_fhdl::{Expr, Memory, Port, PortMode, Signal};
use lx_num::{Shape, wrap};
use lx_state::machine::{Machine, PortState, What, Writing};
use lx_state::values::Value;
use lx_state::work::{fault, limit};
use lx_text::faults::greatest;
use lx_text::{Kind, LimitKind, List, NoMemory, Refusal, Word};
use std::alloc::Global;

/// The bits of a memory's words, and their number.
#[derive(Clone, Copy)]
pub struct Extent {
    pub width: u8,
    pub depth: u32,
}

/// What a call of `get_port` asks for.
#[derive(Clone, Copy)]
pub struct PortCall {
    /// The place of the memory.
    pub memory: usize,
    /// Whether the port may write.
    pub writes: bool,
    pub mode: PortMode,
    /// The bits of each part of a word that is written alone.
    pub part: u8,
}

/// The signals of a port that may write.
#[derive(Clone, Copy)]
pub struct WritePins {
    pub dat_w: Pin,
    pub we: Pin,
}

// A content is taken modulo 2 to the bits of a word.
pub(crate) fn word_of(width: u8, content: i128) -> u64
    requires some { 1 ≤ width }
    requires most { width ≤ 64 }
    ensures { result ≡ word_of width content }
{
    let shape = Shape {
        bits: width,
        signed: false,
    };
    wrap(content, shape) as u64
}

fn words_of(alloc: Global, width: u8, contents: &[i128]) -> Result<List<u64>, NoMemory>
    requires some { 1 ≤ width }
    requires most { width ≤ 64 }
    ensures { IfOk result (λ words. words ≡ map (word_of width) contents.now) }
{
    let mut words = List::new(alloc);
    for content in contents {
        words.push(word_of(width, *content))?;
    }
    Ok(words)
}

fn new_memory(
    alloc: Global,
    line: u32,
    width: u8,
    depth: u32,
    contents: &[i128],
) -> Result<Memory, NoMemory>
    requires some { 1 ≤ width }
    requires most { width ≤ 64 }
    ensures { IfOk result (λ memory. memory ≡ new_memory line width depth contents.now) }
{
    Ok(Memory {
        path: List::new(alloc),
        width,
        depth,
        init: words_of(alloc, width, contents)?,
        line,
    })
}

fn is_store(kind: &SlaveKind) -> bool
    ensures { result ≡ is_store kind.now }
{
    match kind {
        SlaveKind::Ram(_) | SlaveKind::Rom(_) => true,
        SlaveKind::User(_) => false,
    }
}

#[tactic(auto, unfolding(crate::specs::Memories::stores))]
fn stores(slaves: &[SlaveDecl]) -> usize
    ensures { result ≡ stores slaves.now }
{
    let mut count: usize = 0;
    for slave in slaves {
        if is_store(&slave.kind) {
            count += 1;
        }
    }
    count
}

/// The memories so far. Those on the bus are memories too.
pub(crate) fn memory_count(machine: &Machine) -> u128
    ensures { result ≡ memory_count machine.now }
{
    machine.memories.len() as u128 + stores(machine.system.slaves.as_slice()) as u128
}

/// Tells whether one more may come where so many are there already.
#[tactic(auto, unfolding(lx_state::specs::Work::one_more))]
pub(crate) fn count_fits(
    machine: &Machine,
    line: u32,
    what: LimitKind,
    count: u128,
) -> Result<(), Refusal>
    ensures { Gives result machine.now (one_more line what count machine.now) }
{
    let _machine = machine;
    if count < greatest(what) as u128 {
        Ok(())
    } else {
        Err(limit(line, what))
    }
}

// Counts the words of all memories together.
#[tactic(auto, unfolding(crate::specs::Memories::spend_words))]
pub(crate) fn spend_words(machine: &mut Machine, line: u32, count: u32) -> Result<(), Refusal>
    ensures { Gives result machine.new (spend_words line count machine.old) }
{
    let words = machine.words as u64 + count as u64;
    if words > greatest(LimitKind::MemoryWords) as u64 {
        return Err(limit(line, LimitKind::MemoryWords));
    }
    machine.words = words as u32;
    Ok(())
}

#[tactic(auto, unfolding(crate::specs::Memories::keep_memory))]
fn keep_memory(machine: &mut Machine, object: usize, memory: Memory) -> Result<(), Refusal>
    ensures { Gives result machine.new (keep_memory object memory machine.old) }
{
    machine.memories.push(memory)?;
    machine.memory_objects.push(object)?;
    Ok(())
}

/// Makes a memory of so many bits a word and so many words, with the contents of the first ones, each taken modulo 2 to
/// the bits of a word. It has no path before it is described.
#[tactic(auto, unfolding(crate::specs::Memories::memory_made))]
pub fn memory_made(
    machine: &mut Machine,
    alloc: Global,
    line: u32,
    width: u8,
    depth: u32,
    contents: &[i128],
) -> Result<Value, Refusal>
    requires some { 1 ≤ width }
    requires most { width ≤ 64 }
    ensures { Gives result machine.new (memory_made line width depth contents.now machine.old) }
{
    let place = machine.memories.len();
    count_fits(machine, line, LimitKind::Memories, memory_count(machine))?;
    spend_words(machine, line, depth)?;
    let object = machine.object_made(What::Memory(place), line, None)?;
    let memory = new_memory(alloc, line, width, depth, contents)?;
    keep_memory(machine, object, memory)?;
    Ok(Value::Object(object))
}

fn some_extent(machine: &Machine, at: usize) -> Option<Extent>
    ensures { result ≡ some_extent (slice_get machine.now.memories at) }
{
    match machine.memories.get(at) {
        Some(memory) => Some(Extent {
            width: memory.width,
            depth: memory.depth,
        }),
        None => None,
    }
}

/// The bits of the words of the memory at a place, and their number.
#[tactic(auto, unfolding(crate::specs::Memories::extent_of))]
pub fn extent_of(machine: &Machine, line: u32, at: usize) -> Result<Extent, Refusal>
    ensures { Gives result machine.now (extent_of line at machine.now) }
{
    match some_extent(machine, at) {
        Some(extent) => Ok(extent),
        None => Err(fault(line, Kind::WrongKind)),
    }
}

// The words whose addresses so many bits hold.
fn words_within(bits: u8) -> u64
    requires { bits ≤ 63 }
    ensures { result ≡ 2 ^ bits }
{
    1 << bits
}

// The fewest bits, at least 1, that hold the addresses of so many words.
#[tactic(auto, using(crate::proofs::Addresses::enough_bits, crate::proofs::Addresses::no_bit_more, crate::proofs::Addresses::one_bit_more))]
fn address_bits(words: u32) -> u8
    ensures { result ≡ address_bits words }
{
    let mut bits: u8 = 1;
    let mut more: u8 = 16;
    while more > 0 {
        if words as u64 <= words_within(bits) {
            return bits;
        }
        bits += 1;
        more -= 1;
    }
    bits
}

fn port_signal(alloc: Global, line: u32, bits: u8) -> Signal
    ensures { result ≡ port_signal line bits }
{
    Signal {
        path: List::new(alloc),
        shape: Shape {
            bits,
            signed: false,
        },
        reset: 0,
        reset_less: false,
        by_bus: false,
        line,
    }
}

// A signal that is a part of a port.
#[tactic(auto, unfolding(crate::specs::Memories::pin_made))]
fn pin_made(
    machine: &mut Machine,
    alloc: Global,
    line: u32,
    object: usize,
    bits: u8,
    part: &[u8],
) -> Result<Pin, Refusal>
    ensures { Gives result machine.new (pin_made line object bits part.now machine.old) }
{
    let name = Word::new(alloc, part)?;
    let signal = new_signal(
        machine,
        line,
        port_signal(alloc, line, bits),
        object,
        Some(name),
    )?;
    let read = put_expr(machine, line, Expr::Sig(signal))?;
    Ok(Pin { signal, read })
}

// The number of parts of so many bits in a word.
#[tactic(auto, using(crate::proofs::Parts::no_parts))]
fn parts_in(width: u8, part: u8) -> u8
    ensures { result ≡ width / part }
{
    if part == 0 { 0 } else { width / part }
}

// What a port writes, and one bit for each part of a word.
#[tactic(auto, unfolding(crate::specs::Memories::write_pins_made))]
fn write_pins_made(
    machine: &mut Machine,
    alloc: Global,
    line: u32,
    object: usize,
    width: u8,
    part: u8,
) -> Result<Option<WritePins>, Refusal>
    ensures { Gives result machine.new (write_pins_made line object width part machine.old) }
{
    let dat_w = pin_made(machine, alloc, line, object, width, b"dat_w")?;
    let we = pin_made(machine, alloc, line, object, parts_in(width, part), b"we")?;
    Ok(Some(WritePins { dat_w, we }))
}

fn write_pins(
    machine: &mut Machine,
    alloc: Global,
    line: u32,
    object: usize,
    width: u8,
    call: PortCall,
) -> Result<Option<WritePins>, Refusal>
    ensures { Gives result machine.new (write_pins line object width call machine.old) }
{
    if call.writes {
        write_pins_made(machine, alloc, line, object, width, call.part)
    } else {
        Ok(None)
    }
}

// A port that reads at once and can't write works in no domain.
fn works_in_domain(writes: bool, mode: PortMode) -> bool
    ensures { result ≡ works_in_domain writes mode }
{
    match mode {
        PortMode::Async => writes,
        PortMode::WriteFirst | PortMode::ReadFirst | PortMode::NoChange => true,
    }
}

#[tactic(auto, unfolding(crate::specs::Memories::mention_some))]
fn mention_some(machine: &mut Machine, line: u32, name: &[u8]) -> Result<Option<usize>, Refusal>
    ensures { Gives result machine.new (mention_some line name.now machine.old) }
{
    let domain = mention(machine, line, name)?;
    Ok(Some(domain))
}

// The domain that a port works in, which is mentioned by this.
fn port_domain(
    machine: &mut Machine,
    line: u32,
    call: PortCall,
    name: &[u8],
) -> Result<Option<usize>, Refusal>
    ensures { Gives result machine.new (port_domain line call name.now machine.old) }
{
    if works_in_domain(call.writes, call.mode) {
        mention_some(machine, line, name)
    } else {
        Ok(None)
    }
}

fn new_port(
    call: PortCall,
    domain: Option<usize>,
    adr: Pin,
    dat_r: Pin,
    pins: Option<WritePins>,
) -> PortState
    ensures { result ≡ new_port call domain adr dat_r pins }
{
    let reader = Port {
        memory: call.memory,
        domain,
        adr: adr.signal,
        dat_r: Some(dat_r.signal),
        dat_w: None,
        we: None,
        part: call.part,
        mode: call.mode,
    };
    match pins {
        Some(pins) => PortState {
            port: Port {
                dat_w: Some(pins.dat_w.signal),
                we: Some(pins.we.signal),
                ..reader
            },
            adr: adr.read,
            dat_r: dat_r.read,
            writing: Some(Writing {
                dat_w: pins.dat_w.read,
                we: pins.we.read,
            }),
        },
        None => PortState {
            port: reader,
            adr: adr.read,
            dat_r: dat_r.read,
            writing: None,
        },
    }
}

#[tactic(auto, unfolding(crate::specs::Memories::keep_port))]
fn keep_port(machine: &mut Machine, port: PortState) -> Result<(), Refusal>
    ensures { Gives result machine.new (keep_port port machine.old) }
{
    machine.ports.push(port)?;
    Ok(())
}

// Makes the signals of a port in their order, and then mentions its domain.
#[tactic(auto, unfolding(crate::specs::Memories::port_with_pins))]
fn port_with_pins(
    machine: &mut Machine,
    alloc: Global,
    line: u32,
    object: usize,
    extent: Extent,
    call: PortCall,
    name: &[u8],
) -> Result<PortState, Refusal>
    ensures { Gives result machine.new (port_with_pins line object extent call name.now machine.old) }
{
    let bits = address_bits(extent.depth);
    let adr = pin_made(machine, alloc, line, object, bits, b"adr")?;
    let dat_r = pin_made(machine, alloc, line, object, extent.width, b"dat_r")?;
    let pins = write_pins(machine, alloc, line, object, extent.width, call)?;
    let domain = port_domain(machine, line, call, name)?;
    Ok(new_port(call, domain, adr, dat_r, pins))
}

/// Makes a port of a memory: its signals `adr`, `dat_r` and, where it may write, `dat_w` and `we`, which are its parts.
/// It works in the domain of this name, which is mentioned by it, unless it reads at once and can't write.
#[tactic(auto, unfolding(crate::specs::Memories::port_made))]
pub fn port_made(
    machine: &mut Machine,
    alloc: Global,
    line: u32,
    call: PortCall,
    name: &[u8],
) -> Result<Value, Refusal>
    ensures { Gives result machine.new (port_made line call name.now machine.old) }
{
    let extent = extent_of(machine, line, call.memory)?;
    let place = machine.ports.len();
    let object = machine.object_made(What::Port(place), line, None)?;
    let port = port_with_pins(machine, alloc, line, object, extent, call, name)?;
    keep_port(machine, port)?;
    Ok(Value::Object(object))
}
