//! `Signal`.

ghost use Rattle.std.specs.Prelude.{◌≡◌, ◌≤◌, IfOk, is_some};
ghost use Rattle.lx_state.specs.Step.{Gives};
ghost use Rattle.lx_builtins.specs.Arguments.{argument};
ghost use Rattle.lx_builtins.specs.Signals.{all_looked_at, first_looked_at, integer_looked_at, integer_or, is_bound, is_size, looked_at, looked_at_place, name_given, name_looked_at, named_only, shape_looked_at, signal_called, signal_from, signal_of, signal_params, signal_shape, signal_with, signed_bits, sized, span, spanned};

use crate::arguments::{Arguments, argument, bound_to, identifier_of, optional};
use crate::exprs::{StatedShape, stated};
use crate::numbers::is_zero;
use lx_fhdl::Signal;
use lx_num::{Shape, wrap};
use lx_objects::signals::signal_made;
use lx_ops::exprs::{fewest, numbered};
use lx_ops::operators::python;
use lx_ops::signs::{is_below_zero, magnitude};
use lx_state::work::fault;
use lx_state::{Machine, Value};
use lx_text::{Kind, List, NoMemory, Refusal, Word};
use lx_value::{Param, PyOp};
use std::alloc::Global;

// A signal has 1 to 64 bits.
pub(crate) fn is_size(bits: i128) -> bool
    ensures { result ≡ is_size bits }
{
    if is_below_zero(bits) {
        return false;
    }
    let bits = magnitude(bits);
    1 <= bits && bits <= 64
}

#[tactic(auto, unfolding(crate::specs::Signals::sized))]
pub(crate) fn sized(machine: &Machine, line: u32, bits: i128) -> Result<(), Refusal>
    ensures { Gives result machine.now (sized line bits machine.now) }
{
    let _machine = machine;
    if is_size(bits) {
        Ok(())
    } else {
        Err(fault(line, Kind::BadWidth))
    }
}

// The fewest bits of signed values that hold a number.
fn signed_bits(number: i128) -> u8
    ensures { result ≡ signed_bits number }
{
    if is_below_zero(number) {
        fewest(number)
    } else {
        fewest(!number)
    }
}

// The fewest bits that hold both numbers, signed where one of them is below 0.
fn span(low: i128, high: i128) -> StatedShape
    ensures { result ≡ span low high }
{
    if is_below_zero(low) || is_below_zero(high) {
        StatedShape {
            bits: signed_bits(low).max(signed_bits(high)) as i128,
            signed: true,
        }
    } else {
        StatedShape {
            bits: fewest(low).max(fewest(high)) as i128,
            signed: false,
        }
    }
}

pub(crate) fn named_only(alloc: Global, name: &[u8]) -> Result<Param, NoMemory>
    ensures { IfOk result (λ param. param ≡ named_only name.now) }
{
    Ok(Param {
        name: Word::new(alloc, name)?,
        by_place: false,
        required: false,
    })
}

fn signal_params(alloc: Global) -> Result<List<Param>, NoMemory>
    ensures { IfOk result (λ params. params ≡ signal_params) }
{
    let mut params = List::of_one(alloc, optional(alloc, b"bits_sign")?)?;
    params.push(named_only(alloc, b"min")?)?;
    params.push(named_only(alloc, b"max")?)?;
    params.push(named_only(alloc, b"reset")?)?;
    params.push(named_only(alloc, b"reset_less")?)?;
    params.push(named_only(alloc, b"name")?)?;
    Ok(params)
}

#[tactic(auto, unfolding(crate::specs::Signals::shape_looked_at))]
fn shape_looked_at(machine: &Machine, alloc: Global, line: u32, value: Value) -> Result<(), Refusal>
    ensures { Gives result machine.now (shape_looked_at line value machine.now) }
{
    let shape = stated(machine, alloc, line, value)?;
    sized(machine, line, shape.bits)
}

/// Looks at a text that must be an identifier.
#[tactic(auto, unfolding(crate::specs::Signals::name_looked_at))]
pub fn name_looked_at(
    machine: &Machine,
    alloc: Global,
    line: u32,
    value: Value,
) -> Result<(), Refusal>
    ensures { Gives result machine.now (name_looked_at line value machine.now) }
{
    identifier_of(machine, alloc, line, value)?;
    Ok(())
}

#[tactic(auto, unfolding(crate::specs::Signals::integer_looked_at))]
pub(crate) fn integer_looked_at(machine: &Machine, line: u32, value: Value) -> Result<(), Refusal>
    ensures { Gives result machine.now (integer_looked_at line value machine.now) }
{
    machine.int_of(line, value)?;
    Ok(())
}

fn is_bound(name: &[u8]) -> bool
    ensures { result ≡ is_bound name.now }
{
    name == b"min".as_slice() || name == b"max".as_slice()
}

// Looks at the kind of an argument with a name, and then at its value.
fn looked_at(
    machine: &Machine,
    alloc: Global,
    line: u32,
    is_stated: bool,
    name: &[u8],
    value: Value,
) -> Result<(), Refusal>
    ensures { Gives result machine.now (looked_at line is_stated name.now value machine.now) }
{
    if name == b"bits_sign".as_slice() {
        shape_looked_at(machine, alloc, line, value)
    } else if name == b"name".as_slice() {
        name_looked_at(machine, alloc, line, value)
    } else if is_stated && is_bound(name) {
        Ok(())
    } else {
        integer_looked_at(machine, line, value)
    }
}

// Looks at the argument at a place, whose name this is.
fn looked_at_place(
    machine: &Machine,
    alloc: Global,
    line: u32,
    is_stated: bool,
    values: &[Value],
    place: usize,
    name: &[u8],
) -> Result<(), Refusal>
    ensures { Gives result machine.now (looked_at_place line is_stated values.now place name.now machine.now) }
{
    match values.get(place) {
        Some(value) => looked_at(machine, alloc, line, is_stated, name, *value),
        None => Err(fault(line, Kind::WrongCount)),
    }
}

// Looks at the arguments with names, in the order of the text.
#[tactic(auto, unfolding(crate::specs::Signals::all_looked_at))]
fn all_looked_at(
    machine: &Machine,
    alloc: Global,
    line: u32,
    is_stated: bool,
    values: &[Value],
    names: &[Word],
) -> Result<(), Refusal>
    ensures { Gives result machine.now (all_looked_at line is_stated values.now 0 names.now machine.now) }
{
    for (place, name) in names.iter().enumerate() {
        looked_at_place(
            machine,
            alloc,
            line,
            is_stated,
            values,
            place,
            name.as_bytes(),
        )?;
    }
    Ok(())
}

fn first_looked_at(
    machine: &Machine,
    alloc: Global,
    line: u32,
    values: &[Value],
) -> Result<(), Refusal>
    ensures { Gives result machine.now (first_looked_at line values.now machine.now) }
{
    match values {
        [] => Ok(()),
        [first, ..] => shape_looked_at(machine, alloc, line, *first),
    }
}

/// An integer, or what it is where it isn't given.
pub fn integer_or(
    machine: &Machine,
    line: u32,
    missing: i128,
    value: Option<Value>,
) -> Result<i128, Refusal>
    ensures { Gives result machine.now (integer_or line missing value machine.now) }
{
    match value {
        Some(value) => machine.int_of(line, value),
        None => Ok(missing),
    }
}

#[tactic(auto, unfolding(crate::specs::Signals::spanned))]
fn spanned(
    machine: &Machine,
    line: u32,
    low: Option<Value>,
    past: Option<Value>,
) -> Result<StatedShape, Refusal>
    ensures { Gives result machine.now (spanned line low past machine.now) }
{
    let low = integer_or(machine, line, 0, low)?;
    let past = integer_or(machine, line, 2, past)?;
    let high = numbered(machine, line, python(PyOp::Sub, past, 1))?;
    Ok(span(low, high))
}

fn signal_shape(
    machine: &Machine,
    alloc: Global,
    line: u32,
    shape: Option<Value>,
    low: Option<Value>,
    past: Option<Value>,
) -> Result<StatedShape, Refusal>
    ensures { Gives result machine.now (signal_shape line shape low past machine.now) }
{
    match shape {
        Some(value) => stated(machine, alloc, line, value),
        None => spanned(machine, line, low, past),
    }
}

pub(crate) fn name_given(
    machine: &Machine,
    alloc: Global,
    line: u32,
    value: Option<Value>,
) -> Result<Option<Word>, Refusal>
    ensures { Gives result machine.now (name_given line value machine.now) }
{
    match value {
        Some(value) => {
            let name = identifier_of(machine, alloc, line, value)?;
            Ok(Some(name))
        }
        None => Ok(None),
    }
}

fn signal_with(alloc: Global, line: u32, shape: Shape, reset: i128, reset_less: i128) -> Signal
    requires some { 1 ≤ shape.bits }
    requires most { shape.bits ≤ 64 }
    ensures { result ≡ signal_with line shape reset reset_less }
{
    Signal {
        path: List::new(alloc),
        shape,
        reset: wrap(reset, shape),
        reset_less: !is_zero(reset_less),
        by_bus: false,
        line,
    }
}

#[tactic(auto, unfolding(crate::specs::Signals::signal_of))]
fn signal_of(
    machine: &Machine,
    alloc: Global,
    line: u32,
    stated: StatedShape,
    reset: i128,
    reset_less: i128,
) -> Result<Signal, Refusal>
    ensures { Gives result machine.now (signal_of line stated reset reset_less machine.now) }
{
    let _machine = machine;
    if !is_size(stated.bits) {
        return Err(fault(line, Kind::BadWidth));
    }
    let shape = Shape {
        bits: magnitude(stated.bits) as u8,
        signed: stated.signed,
    };
    Ok(signal_with(alloc, line, shape, reset, reset_less))
}

#[tactic(auto, unfolding(crate::specs::Signals::signal_from))]
fn signal_from(
    machine: &mut Machine,
    alloc: Global,
    line: u32,
    stated: StatedShape,
    values: &[Option<Value>],
) -> Result<Value, Refusal>
    ensures { Gives result machine.new (signal_from line stated values.now machine.old) }
{
    let reset = integer_or(machine, line, 0, argument(values, 3))?;
    let reset_less = integer_or(machine, line, 0, argument(values, 4))?;
    let name = name_given(machine, alloc, line, argument(values, 5))?;
    let signal = signal_of(machine, alloc, line, stated, reset, reset_less)?;
    signal_made(machine, line, signal, name)
}

/// `Signal(bits_sign, min=, max=, reset=, reset_less=, name=)`.
#[tactic(auto, unfolding(crate::specs::Signals::signal_called))]
pub fn signal_called(
    machine: &mut Machine,
    alloc: Global,
    line: u32,
    args: &Arguments,
) -> Result<Value, Refusal>
    ensures { Gives result machine.new (signal_called line args.now machine.old) }
{
    let params = signal_params(alloc)?;
    let values = bound_to(machine, alloc, line, params.as_slice(), args)?;
    first_looked_at(machine, alloc, line, args.placed.as_slice())?;
    let is_stated = argument(values.as_slice(), 0).is_some();
    all_looked_at(
        machine,
        alloc,
        line,
        is_stated,
        args.named.as_slice(),
        args.names.as_slice(),
    )?;
    let stated = signal_shape(
        machine,
        alloc,
        line,
        argument(values.as_slice(), 0),
        argument(values.as_slice(), 1),
        argument(values.as_slice(), 2),
    )?;
    signal_from(machine, alloc, line, stated, values.as_slice())
}
