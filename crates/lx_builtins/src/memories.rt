//! `Memory`, and the method `get_port` of a memory.

ghost use Rattle.std.specs.Prelude.{◌≡◌, IfOk};
ghost use Rattle.lx_state.specs.Step.{Gives};
ghost use Rattle.lx_builtins.specs.Memories.{argument_looked_at, arguments_looked_at, builtin_mode, call_looked_at, contents_looked_at, contents_of, contents_or, deep, depth_looked_at, divides, get_port_called, is_depth, memory_called, memory_from, memory_looked_at, memory_names, memory_params, memory_within, mode_looked_at, mode_of, mode_or, mode_there, part_fits, part_looked_at, part_of, port_from, port_looked_at, port_mode, port_names, port_params, width_looked_at};

use crate::arguments::{Arguments, argument, bound_to, given, optional, required};
use crate::domains::{domain_or, name_there};
use crate::numbers::is_zero;
use crate::signals::{integer_looked_at, integer_or, is_size, name_looked_at, sized};
use lx_fhdl::PortMode;
use lx_objects::memories::{PortCall, extent_of, memory_made, port_made};
use lx_ops::signs::{is_below_zero, magnitude};
use lx_state::work::fault;
use lx_state::{Builtin, Machine, Value};
use lx_text::{Kind, List, NoMemory, Refusal, Word};
use lx_value::Param;
use std::alloc::Global;

/// What is called.
#[derive(Clone, Copy)]
pub enum Callee {
    Memory,
    /// `get_port` of a memory whose words have so many bits.
    GetPort(u8),
}

fn memory_params(alloc: Global) -> Result<List<Param>, NoMemory>
    ensures { IfOk result (λ params. params ≡ memory_params) }
{
    let mut params = List::of_one(alloc, required(alloc, b"width")?)?;
    params.push(required(alloc, b"depth")?)?;
    params.push(optional(alloc, b"init")?)?;
    Ok(params)
}

fn memory_names(alloc: Global) -> Result<List<Word>, NoMemory>
    ensures { IfOk result (λ names. names ≡ memory_names) }
{
    let mut names = List::of_one(alloc, Word::new(alloc, b"width")?)?;
    names.push(Word::new(alloc, b"depth")?)?;
    names.push(Word::new(alloc, b"init")?)?;
    Ok(names)
}

#[tactic(auto, unfolding(crate::specs::Memories::width_looked_at))]
fn width_looked_at(machine: &Machine, line: u32, value: Value) -> Result<(), Refusal>
    ensures { Gives result machine.now (width_looked_at line value machine.now) }
{
    let width = machine.int_of(line, value)?;
    sized(machine, line, width)
}

// A memory has 1 to 65,536 words.
fn is_depth(depth: i128) -> bool
    ensures { result ≡ is_depth depth }
{
    if is_below_zero(depth) {
        return false;
    }
    let depth = magnitude(depth);
    1 <= depth && depth <= 65_536
}

fn deep(machine: &Machine, line: u32, depth: i128) -> Result<(), Refusal>
    ensures { Gives result machine.now (deep line depth machine.now) }
{
    let _machine = machine;
    if is_depth(depth) {
        Ok(())
    } else {
        Err(fault(line, Kind::BadWidth))
    }
}

#[tactic(auto, unfolding(crate::specs::Memories::depth_looked_at))]
fn depth_looked_at(machine: &Machine, line: u32, value: Value) -> Result<(), Refusal>
    ensures { Gives result machine.now (depth_looked_at line value machine.now) }
{
    let depth = machine.int_of(line, value)?;
    deep(machine, line, depth)
}

// The contents of a memory: a list of integers.
#[tactic(auto, unfolding(crate::specs::Memories::contents_of))]
fn contents_of(
    machine: &Machine,
    alloc: Global,
    line: u32,
    value: Value,
) -> Result<List<i128>, Refusal>
    ensures { Gives result machine.now (contents_of line value machine.now) }
{
    let values = machine.list_of(alloc, line, value)?;
    machine.ints_of(alloc, line, values.as_slice())
}

#[tactic(auto, unfolding(crate::specs::Memories::contents_looked_at))]
pub(crate) fn contents_looked_at(
    machine: &Machine,
    alloc: Global,
    line: u32,
    value: Value,
) -> Result<(), Refusal>
    ensures { Gives result machine.now (contents_looked_at line value machine.now) }
{
    contents_of(machine, alloc, line, value)?;
    Ok(())
}

// Looks at an argument of `Memory` that is bound to this name.
fn memory_looked_at(
    machine: &Machine,
    alloc: Global,
    line: u32,
    name: &[u8],
    value: Value,
) -> Result<(), Refusal>
    ensures { Gives result machine.now (memory_looked_at line name.now value machine.now) }
{
    if name == b"width".as_slice() {
        width_looked_at(machine, line, value)
    } else if name == b"depth".as_slice() {
        depth_looked_at(machine, line, value)
    } else {
        contents_looked_at(machine, alloc, line, value)
    }
}

fn port_params(alloc: Global) -> Result<List<Param>, NoMemory>
    ensures { IfOk result (λ params. params ≡ port_params) }
{
    let mut params = List::of_one(alloc, optional(alloc, b"write_capable")?)?;
    params.push(optional(alloc, b"async_read")?)?;
    params.push(optional(alloc, b"we_granularity")?)?;
    params.push(optional(alloc, b"mode")?)?;
    params.push(optional(alloc, b"clock_domain")?)?;
    Ok(params)
}

fn port_names(alloc: Global) -> Result<List<Word>, NoMemory>
    ensures { IfOk result (λ names. names ≡ port_names) }
{
    let mut names = List::of_one(alloc, Word::new(alloc, b"write_capable")?)?;
    names.push(Word::new(alloc, b"async_read")?)?;
    names.push(Word::new(alloc, b"we_granularity")?)?;
    names.push(Word::new(alloc, b"mode")?)?;
    names.push(Word::new(alloc, b"clock_domain")?)?;
    Ok(names)
}

// Whether parts of so many bits make up a word.
fn divides(part: u128, width: u8) -> bool
    ensures { result ≡ divides part width }
{
    1 <= part && (part <= width as u128 && width as u128 % part == 0)
}

// The bits of the parts of a word; 0 stands for the whole word.
fn part_of(width: u8, granularity: i128) -> Option<u8>
    ensures { result ≡ part_of width granularity }
{
    if is_below_zero(granularity) {
        return None;
    }
    let part = magnitude(granularity);
    if part == 0 {
        Some(width)
    } else if divides(part, width) {
        Some(part as u8)
    } else {
        None
    }
}

fn part_fits(machine: &Machine, line: u32, width: u8, granularity: i128) -> Result<u8, Refusal>
    ensures { Gives result machine.now (part_fits line width granularity machine.now) }
{
    let _machine = machine;
    match part_of(width, granularity) {
        Some(part) => Ok(part),
        None => Err(fault(line, Kind::BadWidth)),
    }
}

#[tactic(auto, unfolding(crate::specs::Memories::part_looked_at))]
fn part_looked_at(machine: &Machine, line: u32, width: u8, value: Value) -> Result<(), Refusal>
    ensures { Gives result machine.now (part_looked_at line width value machine.now) }
{
    let granularity = machine.int_of(line, value)?;
    part_fits(machine, line, width, granularity)?;
    Ok(())
}

fn builtin_mode(builtin: Builtin) -> Option<PortMode>
    ensures { result ≡ builtin_mode builtin }
{
    match builtin {
        Builtin::WriteFirst => Some(PortMode::WriteFirst),
        Builtin::ReadFirst => Some(PortMode::ReadFirst),
        Builtin::NoChange => Some(PortMode::NoChange),
        _ => None,
    }
}

fn mode_there(value: Value) -> Option<PortMode>
    ensures { result ≡ mode_there value }
{
    match value {
        Value::Builtin(builtin) => builtin_mode(builtin),
        _ => None,
    }
}

#[tactic(auto, unfolding(crate::specs::Memories::mode_of))]
fn mode_of(machine: &Machine, line: u32, value: Value) -> Result<PortMode, Refusal>
    ensures { Gives result machine.now (mode_of line value machine.now) }
{
    let _machine = machine;
    match mode_there(value) {
        Some(mode) => Ok(mode),
        None => Err(fault(line, Kind::WrongKind)),
    }
}

#[tactic(auto, unfolding(crate::specs::Memories::mode_looked_at))]
fn mode_looked_at(machine: &Machine, line: u32, value: Value) -> Result<(), Refusal>
    ensures { Gives result machine.now (mode_looked_at line value machine.now) }
{
    mode_of(machine, line, value)?;
    Ok(())
}

// Looks at an argument of `get_port` that is bound to this name.
fn port_looked_at(
    machine: &Machine,
    alloc: Global,
    line: u32,
    width: u8,
    name: &[u8],
    value: Value,
) -> Result<(), Refusal>
    ensures { Gives result machine.now (port_looked_at line width name.now value machine.now) }
{
    if name == b"we_granularity".as_slice() {
        part_looked_at(machine, line, width, value)
    } else if name == b"mode".as_slice() {
        mode_looked_at(machine, line, value)
    } else if name == b"clock_domain".as_slice() {
        name_looked_at(machine, alloc, line, value)
    } else {
        integer_looked_at(machine, line, value)
    }
}

fn argument_looked_at(
    machine: &Machine,
    alloc: Global,
    line: u32,
    of: Callee,
    name: &[u8],
    value: Value,
) -> Result<(), Refusal>
    ensures { Gives result machine.now (argument_looked_at line of name.now value machine.now) }
{
    match of {
        Callee::Memory => memory_looked_at(machine, alloc, line, name, value),
        Callee::GetPort(width) => port_looked_at(machine, alloc, line, width, name, value),
    }
}

// Looks at arguments that are bound to these names, in their order.
#[tactic(auto, unfolding(crate::specs::Memories::arguments_looked_at))]
fn arguments_looked_at(
    machine: &Machine,
    alloc: Global,
    line: u32,
    of: Callee,
    names: &[Word],
    values: &[Value],
) -> Result<(), Refusal>
    ensures { Gives result machine.now (arguments_looked_at line of names.now 0 values.now machine.now) }
{
    for (place, value) in values.iter().enumerate() {
        argument_looked_at(machine, alloc, line, of, name_there(names, place), *value)?;
    }
    Ok(())
}

// Looks at all arguments of a call. The one that stands first has the first fault.
#[tactic(auto, unfolding(crate::specs::Memories::call_looked_at))]
fn call_looked_at(
    machine: &Machine,
    alloc: Global,
    line: u32,
    of: Callee,
    names: &[Word],
    args: &Arguments,
) -> Result<(), Refusal>
    ensures { Gives result machine.now (call_looked_at line of names.now args.now machine.now) }
{
    arguments_looked_at(machine, alloc, line, of, names, args.placed.as_slice())?;
    arguments_looked_at(
        machine,
        alloc,
        line,
        of,
        args.names.as_slice(),
        args.named.as_slice(),
    )
}

// The contents, of which there are none where none are given.
pub(crate) fn contents_or(
    machine: &Machine,
    alloc: Global,
    line: u32,
    value: Option<Value>,
) -> Result<List<i128>, Refusal>
    ensures { Gives result machine.now (contents_or line value machine.now) }
{
    match value {
        Some(value) => contents_of(machine, alloc, line, value),
        None => Ok(List::new(alloc)),
    }
}

// There may be no more contents than words.
fn memory_within(
    machine: &mut Machine,
    alloc: Global,
    line: u32,
    width: i128,
    depth: i128,
    contents: &[i128],
) -> Result<Value, Refusal>
    ensures { Gives result machine.new (memory_within line width depth contents.now machine.old) }
{
    if !(is_size(width) && is_depth(depth)) {
        return Err(fault(line, Kind::BadWidth));
    }
    let width = magnitude(width) as u8;
    let depth = magnitude(depth) as u32;
    if contents.len() as u64 > depth as u64 {
        return Err(fault(line, Kind::WrongCount));
    }
    memory_made(machine, alloc, line, width, depth, contents)
}

#[tactic(auto, unfolding(crate::specs::Memories::memory_from))]
fn memory_from(
    machine: &mut Machine,
    alloc: Global,
    line: u32,
    width: Value,
    depth: Value,
    init: Option<Value>,
) -> Result<Value, Refusal>
    ensures { Gives result machine.new (memory_from line width depth init machine.old) }
{
    let width = machine.int_of(line, width)?;
    let depth = machine.int_of(line, depth)?;
    let contents = contents_or(machine, alloc, line, init)?;
    memory_within(machine, alloc, line, width, depth, contents.as_slice())
}

/// `Memory(width, depth, init=[])`. The argument that stands first has the first fault; then come more contents than
/// words, and then the limits.
#[tactic(auto, unfolding(crate::specs::Memories::memory_called))]
pub fn memory_called(
    machine: &mut Machine,
    alloc: Global,
    line: u32,
    args: &Arguments,
) -> Result<Value, Refusal>
    ensures { Gives result machine.new (memory_called line args.now machine.old) }
{
    let params = memory_params(alloc)?;
    let names = memory_names(alloc)?;
    let values = bound_to(machine, alloc, line, params.as_slice(), args)?;
    call_looked_at(machine, alloc, line, Callee::Memory, names.as_slice(), args)?;
    let width = given(machine, line, values.as_slice(), 0)?;
    let depth = given(machine, line, values.as_slice(), 1)?;
    memory_from(
        machine,
        alloc,
        line,
        width,
        depth,
        argument(values.as_slice(), 2),
    )
}

// The stated mode, which is `WRITE_FIRST` where none is given.
fn mode_or(machine: &Machine, line: u32, value: Option<Value>) -> Result<PortMode, Refusal>
    ensures { Gives result machine.now (mode_or line value machine.now) }
{
    match value {
        Some(value) => mode_of(machine, line, value),
        None => Ok(PortMode::WriteFirst),
    }
}

// A port that reads at once has no other mode.
fn port_mode(async_read: i128, stated: PortMode) -> PortMode
    ensures { result ≡ port_mode async_read stated }
{
    if is_zero(async_read) {
        stated
    } else {
        PortMode::Async
    }
}

#[tactic(auto, unfolding(crate::specs::Memories::port_from))]
fn port_from(
    machine: &mut Machine,
    alloc: Global,
    line: u32,
    memory: usize,
    width: u8,
    values: &[Option<Value>],
) -> Result<Value, Refusal>
    ensures { Gives result machine.new (port_from line memory width values.now machine.old) }
{
    let writes = integer_or(machine, line, 0, argument(values, 0))?;
    let async_read = integer_or(machine, line, 0, argument(values, 1))?;
    let granularity = integer_or(machine, line, 0, argument(values, 2))?;
    let part = part_fits(machine, line, width, granularity)?;
    let stated = mode_or(machine, line, argument(values, 3))?;
    let name = domain_or(machine, alloc, line, argument(values, 4))?;
    let call = PortCall {
        memory,
        writes: !is_zero(writes),
        mode: port_mode(async_read, stated),
        part,
    };
    port_made(machine, alloc, line, call, name.as_bytes())
}

/// `get_port(write_capable=False, async_read=False, we_granularity=0, mode=WRITE_FIRST, clock_domain="sys")` of the
/// memory at a place. The argument that stands first has the first fault.
#[tactic(auto, unfolding(crate::specs::Memories::get_port_called))]
pub fn get_port_called(
    machine: &mut Machine,
    alloc: Global,
    line: u32,
    memory: usize,
    args: &Arguments,
) -> Result<Value, Refusal>
    ensures { Gives result machine.new (get_port_called line memory args.now machine.old) }
{
    let params = port_params(alloc)?;
    let names = port_names(alloc)?;
    let values = bound_to(machine, alloc, line, params.as_slice(), args)?;
    let extent = extent_of(machine, line, memory)?;
    call_looked_at(
        machine,
        alloc,
        line,
        Callee::GetPort(extent.width),
        names.as_slice(),
        args,
    )?;
    port_from(
        machine,
        alloc,
        line,
        memory,
        extent.width,
        values.as_slice(),
    )
}
