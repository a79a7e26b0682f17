//! `SoCRegion`, `wishbone.Interface`, and what a system's top is asked for (LiteX's SoC builder: `add_ram`, `add_rom`,
//! `add_constant`, `bus.add_slave`, `csr.add`, `irq.add`, and the options of `super().__init__`).

ghost use Rattle.std.specs.Prelude.{◌≡◌, ◌≤◌, IfOk, slice_get};
ghost use Rattle.lx_state.specs.Step.{Gives};
ghost use Rattle.lx_builtins.specs.declared.systems.Request.TheVariants as request;
ghost use Rattle.lx_builtins.specs.Systems.{add_bank_called, add_constant_called, add_interrupt_called, add_slave_called, argument_looked_at, asked_with, base_of, base_or, bytes_within, constant_looked_at, constant_or, free_interface, init_looked_at, integer_option, interface_at, interface_called, interface_of, interface_of_object, interface_of_what, long_fits, long_of, name_and, named_looked_at, number_looked_at, number_of, number_or, option_fits, options_called, ordering_fits, ordering_option, origin_of, origin_or, param_at, params_of, placed_looked_at, region_at, region_called, region_looked_at, region_of, region_of_object, region_of_what, short_fits, short_of, size_of, slave_looked_at, stated_number, stated_origin, store_called, store_looked_at, store_within, wish_of};

use crate::arguments::{Arguments, argument, bound_to, given, identifier_of, optional, required};
use crate::domains::name_there;
use crate::memories::{contents_looked_at, contents_or};
use crate::numbers::is_zero;
use crate::registers::constant_value;
use crate::signals::{integer_looked_at, integer_or, name_looked_at, named_only};
use lx_description::ConstValue;
use lx_fhdl::Fix;
use lx_objects::systems::{
    bank_added, constant_added, interface_made, interrupt_added, region_made, set_base,
    slave_added, store_made, words_of,
};
use lx_ops::signs::{is_below_zero, magnitude};
use lx_state::machine::{RegionState, What};
use lx_state::work::fault;
use lx_state::{Machine, Value};
use lx_text::{Kind, List, NoMemory, Refusal, Word};
use lx_value::Param;
use std::alloc::Global;

/// What is called.
#[derive(Clone, Copy)]
pub enum Request {
    /// `super().__init__` of a system.
    Options,
    /// `SoCRegion`.
    Region,
    /// `wishbone.Interface`.
    Interface,
    /// `add_ram` and `add_rom`.
    Store,
    /// `bus.add_slave`.
    Slave,
    /// `csr.add` and `irq.add`.
    Number,
    /// `add_constant`.
    Constant,
}

// A number that 64 bits hold.
fn long_of(number: i128) -> Option<u64>
    ensures { result ≡ long_of number }
{
    if is_below_zero(number) {
        return None;
    }
    let number = magnitude(number);
    if number < 0x1_0000_0000_0000_0000 {
        Some(number as u64)
    } else {
        None
    }
}

fn long_fits(machine: &Machine, line: u32, number: i128) -> Result<u64, Refusal>
    ensures { Gives result machine.now (long_fits line number machine.now) }
{
    let _machine = machine;
    match long_of(number) {
        Some(number) => Ok(number),
        None => Err(fault(line, Kind::NumberRange)),
    }
}

// A number that 32 bits hold.
fn short_of(number: i128) -> Option<u32>
    ensures { result ≡ short_of number }
{
    if is_below_zero(number) {
        return None;
    }
    let number = magnitude(number);
    if number < 0x1_0000_0000 {
        Some(number as u32)
    } else {
        None
    }
}

fn short_fits(machine: &Machine, line: u32, number: i128) -> Result<u32, Refusal>
    ensures { Gives result machine.now (short_fits line number machine.now) }
{
    let _machine = machine;
    match short_of(number) {
        Some(number) => Ok(number),
        None => Err(fault(line, Kind::NumberRange)),
    }
}

#[tactic(auto, unfolding(crate::specs::Systems::stated_origin))]
fn stated_origin(machine: &Machine, line: u32, value: Value) -> Result<Option<u64>, Refusal>
    ensures { Gives result machine.now (stated_origin line value machine.now) }
{
    let number = machine.int_of(line, value)?;
    let origin = long_fits(machine, line, number)?;
    Ok(Some(origin))
}

// Where a region begins, or None.
fn origin_of(machine: &Machine, line: u32, value: Value) -> Result<Option<u64>, Refusal>
    ensures { Gives result machine.now (origin_of line value machine.now) }
{
    match value {
        Value::Nothing => Ok(None),
        _ => stated_origin(machine, line, value),
    }
}

fn origin_or(machine: &Machine, line: u32, value: Option<Value>) -> Result<Option<u64>, Refusal>
    ensures { Gives result machine.now (origin_or line value machine.now) }
{
    match value {
        Some(value) => origin_of(machine, line, value),
        None => Ok(None),
    }
}

#[tactic(auto, unfolding(crate::specs::Systems::stated_number))]
fn stated_number(machine: &Machine, line: u32, value: Value) -> Result<Option<u32>, Refusal>
    ensures { Gives result machine.now (stated_number line value machine.now) }
{
    let number = machine.int_of(line, value)?;
    let number = short_fits(machine, line, number)?;
    Ok(Some(number))
}

// The number of a bank or of an interrupt, or None.
fn number_of(machine: &Machine, line: u32, value: Value) -> Result<Option<u32>, Refusal>
    ensures { Gives result machine.now (number_of line value machine.now) }
{
    match value {
        Value::Nothing => Ok(None),
        _ => stated_number(machine, line, value),
    }
}

fn number_or(machine: &Machine, line: u32, value: Option<Value>) -> Result<Option<u32>, Refusal>
    ensures { Gives result machine.now (number_or line value machine.now) }
{
    match value {
        Some(value) => number_of(machine, line, value),
        None => Ok(None),
    }
}

fn bytes_within(machine: &Machine, line: u32, most: u64, bytes: u64) -> Result<u64, Refusal>
    ensures gives { Gives result machine.now (bytes_within line most bytes machine.now) }
    ensures few { IfOk result (λ size. size ≤ most) }
{
    let _machine = machine;
    if 1 <= bytes && bytes <= most {
        Ok(bytes)
    } else {
        Err(fault(line, Kind::BadWidth))
    }
}

// 1 to so many bytes.
#[tactic(auto, unfolding(crate::specs::Systems::size_of))]
fn size_of(machine: &Machine, line: u32, most: u64, value: Value) -> Result<u64, Refusal>
    ensures gives { Gives result machine.now (size_of line most value machine.now) }
    ensures few { IfOk result (λ size. size ≤ most) }
{
    let number = machine.int_of(line, value)?;
    let bytes = long_fits(machine, line, number)?;
    bytes_within(machine, line, most, bytes)
}

/// The most bytes of a region.
const MOST_BYTES: u64 = 0x1_0000_0000;

/// The most bytes of a memory on the bus.
const MOST_STORED: u64 = 262_144;

fn region_of_what(machine: &Machine, what: What) -> Option<RegionState>
    ensures { result ≡ region_of_what machine.now what }
{
    match what {
        What::Region(at) => machine.regions.get(at).copied(),
        _ => None,
    }
}

fn region_of_object(machine: &Machine, at: usize) -> Option<RegionState>
    ensures { result ≡ region_of_object machine.now (slice_get machine.now.objects at) }
{
    match machine.objects.get(at) {
        Some(object) => region_of_what(machine, object.what),
        None => None,
    }
}

fn region_at(machine: &Machine, value: Value) -> Option<RegionState>
    ensures { result ≡ region_at machine.now value }
{
    match value {
        Value::Object(at) => region_of_object(machine, at),
        _ => None,
    }
}

// The region that a value is.
#[tactic(auto, unfolding(crate::specs::Systems::region_of))]
fn region_of(machine: &Machine, line: u32, value: Value) -> Result<RegionState, Refusal>
    ensures { Gives result machine.now (region_of line value machine.now) }
{
    match region_at(machine, value) {
        Some(region) => Ok(region),
        None => Err(fault(line, Kind::WrongKind)),
    }
}

// The interface at a place, where it was not handed to the bus yet.
fn free_interface(machine: &Machine, at: usize) -> Option<usize>
    ensures { result ≡ free_interface at (slice_get machine.now.interfaces at) }
{
    match machine.interfaces.get(at) {
        Some(interface) => if interface.handed { None } else { Some(at) },
        None => None,
    }
}

fn interface_of_what(machine: &Machine, what: What) -> Option<usize>
    ensures { result ≡ interface_of_what machine.now what }
{
    match what {
        What::Interface(at) => free_interface(machine, at),
        _ => None,
    }
}

fn interface_of_object(machine: &Machine, at: usize) -> Option<usize>
    ensures { result ≡ interface_of_object machine.now (slice_get machine.now.objects at) }
{
    match machine.objects.get(at) {
        Some(object) => interface_of_what(machine, object.what),
        None => None,
    }
}

fn interface_at(machine: &Machine, value: Value) -> Option<usize>
    ensures { result ≡ interface_at machine.now value }
{
    match value {
        Value::Object(at) => interface_of_object(machine, at),
        _ => None,
    }
}

// The interface that a value is, where it was not handed to the bus yet.
#[tactic(auto, unfolding(crate::specs::Systems::interface_of))]
fn interface_of(machine: &Machine, line: u32, value: Value) -> Result<usize, Refusal>
    ensures { Gives result machine.now (interface_of line value machine.now) }
{
    match interface_at(machine, value) {
        Some(place) => Ok(place),
        None => Err(fault(line, Kind::WrongKind)),
    }
}

#[tactic(auto, unfolding(crate::specs::Systems::option_fits))]
fn option_fits(
    machine: &Machine,
    alloc: Global,
    line: u32,
    name: &[u8],
    only: i128,
    number: i128,
) -> Result<(), Refusal>
    ensures { Gives result machine.now (option_fits line name.now only number machine.now) }
{
    let _machine = machine;
    if number == only {
        Ok(())
    } else {
        Err(fault(line, Kind::BadOption(Word::new(alloc, name)?)))
    }
}

// An option that has one value alone.
#[tactic(auto, unfolding(crate::specs::Systems::integer_option))]
fn integer_option(
    machine: &Machine,
    alloc: Global,
    line: u32,
    name: &[u8],
    only: i128,
    value: Value,
) -> Result<(), Refusal>
    ensures { Gives result machine.now (integer_option line name.now only value machine.now) }
{
    let number = machine.int_of(line, value)?;
    option_fits(machine, alloc, line, name, only, number)
}

fn ordering_fits(machine: &Machine, alloc: Global, line: u32, text: &[u8]) -> Result<(), Refusal>
    ensures { Gives result machine.now (ordering_fits line text.now machine.now) }
{
    let _machine = machine;
    if text == b"big".as_slice() {
        Ok(())
    } else {
        Err(fault(line, Kind::BadOption(Word::new(alloc, b"csr_ordering")?)))
    }
}

#[tactic(auto, unfolding(crate::specs::Systems::ordering_option))]
fn ordering_option(machine: &Machine, alloc: Global, line: u32, value: Value) -> Result<(), Refusal>
    ensures { Gives result machine.now (ordering_option line value machine.now) }
{
    let text = machine.text_of(alloc, line, value)?;
    ordering_fits(machine, alloc, line, text.as_bytes())
}

#[tactic(auto, unfolding(crate::specs::Systems::base_of))]
fn base_of(machine: &Machine, line: u32, value: Value) -> Result<u64, Refusal>
    ensures { Gives result machine.now (base_of line value machine.now) }
{
    let number = machine.int_of(line, value)?;
    long_fits(machine, line, number)
}

fn base_or(machine: &Machine, line: u32, value: Option<Value>) -> Result<u64, Refusal>
    ensures { Gives result machine.now (base_or line value machine.now) }
{
    match value {
        Some(value) => base_of(machine, line, value),
        None => Ok(0xf000_0000),
    }
}

// Looks at an option of a system.
fn init_looked_at(
    machine: &Machine,
    alloc: Global,
    line: u32,
    name: &[u8],
    value: Value,
) -> Result<(), Refusal>
    ensures { Gives result machine.now (init_looked_at line name.now value machine.now) }
{
    if name == b"csr_data_width".as_slice() {
        integer_option(machine, alloc, line, name, 32, value)
    } else if name == b"csr_ordering".as_slice() {
        ordering_option(machine, alloc, line, value)
    } else if name == b"csr_paging".as_slice() {
        integer_option(machine, alloc, line, name, 0x800, value)
    } else {
        base_of(machine, line, value)?;
        Ok(())
    }
}

// Looks at an argument of `SoCRegion`; `mode` is anything.
fn region_looked_at(machine: &Machine, line: u32, name: &[u8], value: Value) -> Result<(), Refusal>
    ensures { Gives result machine.now (region_looked_at line name.now value machine.now) }
{
    if name == b"origin".as_slice() {
        origin_of(machine, line, value)?;
        Ok(())
    } else if name == b"size".as_slice() {
        size_of(machine, line, MOST_BYTES, value)?;
        Ok(())
    } else if name == b"cached".as_slice() {
        integer_looked_at(machine, line, value)
    } else {
        Ok(())
    }
}

// Looks at an argument of `add_ram` or `add_rom`.
fn store_looked_at(
    machine: &Machine,
    alloc: Global,
    line: u32,
    name: &[u8],
    value: Value,
) -> Result<(), Refusal>
    ensures { Gives result machine.now (store_looked_at line name.now value machine.now) }
{
    if name == b"name".as_slice() {
        name_looked_at(machine, alloc, line, value)
    } else if name == b"origin".as_slice() {
        origin_of(machine, line, value)?;
        Ok(())
    } else if name == b"size".as_slice() {
        size_of(machine, line, MOST_STORED, value)?;
        Ok(())
    } else {
        contents_looked_at(machine, alloc, line, value)
    }
}

// Looks at an argument of `bus.add_slave`.
fn slave_looked_at(
    machine: &Machine,
    alloc: Global,
    line: u32,
    name: &[u8],
    value: Value,
) -> Result<(), Refusal>
    ensures { Gives result machine.now (slave_looked_at line name.now value machine.now) }
{
    if name == b"name".as_slice() {
        name_looked_at(machine, alloc, line, value)
    } else if name == b"slave".as_slice() {
        interface_of(machine, line, value)?;
        Ok(())
    } else {
        region_of(machine, line, value)?;
        Ok(())
    }
}

// Looks at an argument of `csr.add` or `irq.add`.
fn number_looked_at(
    machine: &Machine,
    alloc: Global,
    line: u32,
    name: &[u8],
    value: Value,
) -> Result<(), Refusal>
    ensures { Gives result machine.now (number_looked_at line name.now value machine.now) }
{
    if name == b"name".as_slice() {
        name_looked_at(machine, alloc, line, value)
    } else {
        number_of(machine, line, value)?;
        Ok(())
    }
}

// Looks at an argument of `add_constant`.
fn constant_looked_at(
    machine: &Machine,
    alloc: Global,
    line: u32,
    name: &[u8],
    value: Value,
) -> Result<(), Refusal>
    ensures { Gives result machine.now (constant_looked_at line name.now value machine.now) }
{
    if name == b"name".as_slice() {
        name_looked_at(machine, alloc, line, value)
    } else {
        constant_value(machine, alloc, line, value)?;
        Ok(())
    }
}

fn argument_looked_at(
    machine: &Machine,
    alloc: Global,
    line: u32,
    of: Request,
    name: &[u8],
    value: Value,
) -> Result<(), Refusal>
    ensures { Gives result machine.now (argument_looked_at line of name.now value machine.now) }
{
    match of {
        Request::Options => init_looked_at(machine, alloc, line, name, value),
        Request::Region => region_looked_at(machine, line, name, value),
        Request::Store => store_looked_at(machine, alloc, line, name, value),
        Request::Slave => slave_looked_at(machine, alloc, line, name, value),
        Request::Number => number_looked_at(machine, alloc, line, name, value),
        Request::Constant => constant_looked_at(machine, alloc, line, name, value),
        Request::Interface => Ok(()),
    }
}

fn options_params(alloc: Global) -> Result<List<Param>, NoMemory>
    ensures { IfOk result (λ params. params ≡ params_of request.Options) }
{
    let mut params = List::of_one(alloc, optional(alloc, b"csr_data_width")?)?;
    params.push(optional(alloc, b"csr_ordering")?)?;
    params.push(optional(alloc, b"csr_paging")?)?;
    params.push(optional(alloc, b"csr_base")?)?;
    Ok(params)
}

fn region_params(alloc: Global) -> Result<List<Param>, NoMemory>
    ensures { IfOk result (λ params. params ≡ params_of request.Region) }
{
    let mut params = List::of_one(alloc, optional(alloc, b"origin")?)?;
    params.push(required(alloc, b"size")?)?;
    params.push(optional(alloc, b"cached")?)?;
    params.push(named_only(alloc, b"mode")?)?;
    Ok(params)
}

fn store_params(alloc: Global) -> Result<List<Param>, NoMemory>
    ensures { IfOk result (λ params. params ≡ params_of request.Store) }
{
    let mut params = List::of_one(alloc, required(alloc, b"name")?)?;
    params.push(required(alloc, b"origin")?)?;
    params.push(required(alloc, b"size")?)?;
    params.push(optional(alloc, b"contents")?)?;
    Ok(params)
}

fn slave_params(alloc: Global) -> Result<List<Param>, NoMemory>
    ensures { IfOk result (λ params. params ≡ params_of request.Slave) }
{
    let mut params = List::of_one(alloc, required(alloc, b"name")?)?;
    params.push(required(alloc, b"slave")?)?;
    params.push(required(alloc, b"region")?)?;
    Ok(params)
}

fn name_and(alloc: Global, other: &[u8]) -> Result<List<Param>, NoMemory>
    ensures { IfOk result (λ params. params ≡ name_and other.now) }
{
    let mut params = List::of_one(alloc, required(alloc, b"name")?)?;
    params.push(optional(alloc, other)?)?;
    Ok(params)
}

// The parameters of a call, in their order.
fn params_of(alloc: Global, of: Request) -> Result<List<Param>, NoMemory>
    ensures { IfOk result (λ params. params ≡ params_of of) }
{
    match of {
        Request::Options => options_params(alloc),
        Request::Region => region_params(alloc),
        Request::Store => store_params(alloc),
        Request::Slave => slave_params(alloc),
        Request::Number => name_and(alloc, b"n"),
        Request::Constant => name_and(alloc, b"value"),
        Request::Interface => List::of_one(alloc, named_only(alloc, b"mode")?),
    }
}

fn param_at(params: &[Param], place: usize) -> &[u8]
    ensures { result.now ≡ param_at params.now place }
{
    match params.get(place) {
        Some(param) => param.name.as_bytes(),
        None => b"",
    }
}

// Looks at arguments without names, in their order.
#[tactic(auto, unfolding(crate::specs::Systems::placed_looked_at))]
fn placed_looked_at(
    machine: &Machine,
    alloc: Global,
    line: u32,
    of: Request,
    params: &[Param],
    values: &[Value],
) -> Result<(), Refusal>
    ensures { Gives result machine.now (placed_looked_at line of params.now 0 values.now machine.now) }
{
    for (place, value) in values.iter().enumerate() {
        argument_looked_at(machine, alloc, line, of, param_at(params, place), *value)?;
    }
    Ok(())
}

// Looks at arguments with these names, in the order of the text.
#[tactic(auto, unfolding(crate::specs::Systems::named_looked_at))]
fn named_looked_at(
    machine: &Machine,
    alloc: Global,
    line: u32,
    of: Request,
    names: &[Word],
    values: &[Value],
) -> Result<(), Refusal>
    ensures { Gives result machine.now (named_looked_at line of names.now 0 values.now machine.now) }
{
    for (place, value) in values.iter().enumerate() {
        argument_looked_at(machine, alloc, line, of, name_there(names, place), *value)?;
    }
    Ok(())
}

// The argument of each parameter, each looked at by itself; the one that stands first has the first fault.
#[tactic(auto, unfolding(crate::specs::Systems::asked_with))]
fn asked_with(
    machine: &Machine,
    alloc: Global,
    line: u32,
    of: Request,
    args: &Arguments,
) -> Result<List<Option<Value>>, Refusal>
    ensures { Gives result machine.now (asked_with line of args.now machine.now) }
{
    let params = params_of(alloc, of)?;
    let values = bound_to(machine, alloc, line, params.as_slice(), args)?;
    placed_looked_at(
        machine,
        alloc,
        line,
        of,
        params.as_slice(),
        args.placed.as_slice(),
    )?;
    named_looked_at(
        machine,
        alloc,
        line,
        of,
        args.names.as_slice(),
        args.named.as_slice(),
    )?;
    Ok(values)
}

/// `super().__init__(csr_data_width=32, csr_ordering="big", csr_paging=0x800, csr_base=0xf0000000)` of a system. Other
/// values of the first three are BadOption; the last call counts.
#[tactic(auto, unfolding(crate::specs::Systems::options_called))]
pub fn options_called(
    machine: &mut Machine,
    alloc: Global,
    line: u32,
    args: &Arguments,
) -> Result<Value, Refusal>
    ensures { Gives result machine.new (options_called line args.now machine.old) }
{
    let values = asked_with(machine, alloc, line, Request::Options, args)?;
    let base = base_or(machine, line, argument(values.as_slice(), 3))?;
    set_base(machine, line, base)
}

/// `SoCRegion(origin=None, size, cached=True, mode=)`.
#[tactic(auto, unfolding(crate::specs::Systems::region_called))]
pub fn region_called(
    machine: &mut Machine,
    alloc: Global,
    line: u32,
    args: &Arguments,
) -> Result<Value, Refusal>
    ensures { Gives result machine.new (region_called line args.now machine.old) }
{
    let values = asked_with(machine, alloc, line, Request::Region, args)?;
    let origin = origin_or(machine, line, argument(values.as_slice(), 0))?;
    let stated = given(machine, line, values.as_slice(), 1)?;
    let size = size_of(machine, line, MOST_BYTES, stated)?;
    let cached = integer_or(machine, line, 1, argument(values.as_slice(), 2))?;
    let region = RegionState {
        origin,
        size,
        cached: !is_zero(cached),
    };
    region_made(machine, line, region)
}

/// `wishbone.Interface(mode=)`.
#[tactic(auto, unfolding(crate::specs::Systems::interface_called))]
pub fn interface_called(
    machine: &mut Machine,
    alloc: Global,
    line: u32,
    args: &Arguments,
) -> Result<Value, Refusal>
    ensures { Gives result machine.new (interface_called line args.now machine.old) }
{
    asked_with(machine, alloc, line, Request::Interface, args)?;
    interface_made(machine, alloc, line)
}

// There may be no more contents than words.
fn store_within(
    machine: &mut Machine,
    alloc: Global,
    line: u32,
    writes: bool,
    name: Word,
    origin: Option<u64>,
    size: u64,
    contents: &[i128],
) -> Result<Value, Refusal>
    requires { size ≤ 262144 }
    ensures { Gives result machine.new (store_within line writes name origin size contents.now machine.old) }
{
    if contents.len() as u64 > words_of(size) as u64 {
        return Err(fault(line, Kind::WrongCount));
    }
    store_made(machine, alloc, line, writes, name, origin, size, contents)
}

/// `add_ram(name, origin, size, contents=[])`, and `add_rom(..)`, which the bus can't write. The argument that stands first
/// has the first fault; then come more contents than words, and then the limits.
#[tactic(auto, unfolding(crate::specs::Systems::store_called))]
pub fn store_called(
    machine: &mut Machine,
    alloc: Global,
    line: u32,
    writes: bool,
    args: &Arguments,
) -> Result<Value, Refusal>
    ensures { Gives result machine.new (store_called line writes args.now machine.old) }
{
    let values = asked_with(machine, alloc, line, Request::Store, args)?;
    let first = given(machine, line, values.as_slice(), 0)?;
    let name = identifier_of(machine, alloc, line, first)?;
    let origin = origin_or(machine, line, argument(values.as_slice(), 1))?;
    let stated = given(machine, line, values.as_slice(), 2)?;
    let size = size_of(machine, line, MOST_STORED, stated)?;
    let contents = contents_or(machine, alloc, line, argument(values.as_slice(), 3))?;
    store_within(
        machine,
        alloc,
        line,
        writes,
        name,
        origin,
        size,
        contents.as_slice(),
    )
}

/// `bus.add_slave(name, slave, region)`. An interface that was handed to the bus already is WrongKind.
#[tactic(auto, unfolding(crate::specs::Systems::add_slave_called))]
pub fn add_slave_called(
    machine: &mut Machine,
    alloc: Global,
    line: u32,
    args: &Arguments,
) -> Result<Value, Refusal>
    ensures { Gives result machine.new (add_slave_called line args.now machine.old) }
{
    let values = asked_with(machine, alloc, line, Request::Slave, args)?;
    let first = given(machine, line, values.as_slice(), 0)?;
    let name = identifier_of(machine, alloc, line, first)?;
    let second = given(machine, line, values.as_slice(), 1)?;
    let interface = interface_of(machine, line, second)?;
    let third = given(machine, line, values.as_slice(), 2)?;
    let region = region_of(machine, line, third)?;
    slave_added(machine, alloc, line, name, interface, region)
}

// What `csr.add` or `irq.add` wishes for.
#[tactic(auto, unfolding(crate::specs::Systems::wish_of))]
fn wish_of(machine: &Machine, alloc: Global, line: u32, args: &Arguments) -> Result<Fix, Refusal>
    ensures { Gives result machine.now (wish_of line args.now machine.now) }
{
    let values = asked_with(machine, alloc, line, Request::Number, args)?;
    let first = given(machine, line, values.as_slice(), 0)?;
    let name = identifier_of(machine, alloc, line, first)?;
    let number = number_or(machine, line, argument(values.as_slice(), 1))?;
    Ok(Fix { name, number, line })
}

/// `csr.add(name, n=None)`.
#[tactic(auto, unfolding(crate::specs::Systems::add_bank_called))]
pub fn add_bank_called(
    machine: &mut Machine,
    alloc: Global,
    line: u32,
    args: &Arguments,
) -> Result<Value, Refusal>
    ensures { Gives result machine.new (add_bank_called line args.now machine.old) }
{
    let wish = wish_of(machine, alloc, line, args)?;
    bank_added(machine, wish)
}

/// `irq.add(name, n=None)`.
#[tactic(auto, unfolding(crate::specs::Systems::add_interrupt_called))]
pub fn add_interrupt_called(
    machine: &mut Machine,
    alloc: Global,
    line: u32,
    args: &Arguments,
) -> Result<Value, Refusal>
    ensures { Gives result machine.new (add_interrupt_called line args.now machine.old) }
{
    let wish = wish_of(machine, alloc, line, args)?;
    interrupt_added(machine, wish)
}

fn constant_or(
    machine: &Machine,
    alloc: Global,
    line: u32,
    value: Option<Value>,
) -> Result<ConstValue, Refusal>
    ensures { Gives result machine.now (constant_or line value machine.now) }
{
    match value {
        Some(value) => constant_value(machine, alloc, line, value),
        None => Ok(ConstValue::Nothing),
    }
}

/// `add_constant(name, value=None)`.
#[tactic(auto, unfolding(crate::specs::Systems::add_constant_called))]
pub fn add_constant_called(
    machine: &mut Machine,
    alloc: Global,
    line: u32,
    args: &Arguments,
) -> Result<Value, Refusal>
    ensures { Gives result machine.new (add_constant_called line args.now machine.old) }
{
    let values = asked_with(machine, alloc, line, Request::Constant, args)?;
    let first = given(machine, line, values.as_slice(), 0)?;
    let name = identifier_of(machine, alloc, line, first)?;
    let value = constant_or(machine, alloc, line, argument(values.as_slice(), 1))?;
    constant_added(machine, line, name, value)
}
