//! Built-in names on integers.

ghost use Rattle.std.specs.Prelude.{◌≡◌, ◌<◌, ◌≤◌, ◌^◌, IfOk, map, nat_eq};
ghost use Rattle.lx_state.specs.declared.values.Value.TheVariants as value;
ghost use Rattle.lx_state.specs.Step.{Gives};
ghost use Rattle.lx_builtins.specs.Numbers.{bits_for_called, comes_before, counts, exponent_below, greatest_made, greatest_of, int_called, is_range_count, is_zero, least_made, least_of, log2_int_called, max_called, min_called, one_integer, power_of_two, range_called, range_by, range_made, range_of, steps_from, str_called};

use crate::arguments::{Arguments, one, unnamed};
use lx_ops::exprs::fewest;
use lx_ops::signs::{is_below_zero, magnitude};
use lx_state::work::fault;
use lx_state::{Machine, Value};
use lx_text::{Kind, List, NoMemory, Refusal, Text, Word};
use std::alloc::Global;

// Whether a number comes before the end, where the steps go up or down.
fn comes_before(step: i128, number: i128, past: i128) -> bool
    ensures { result ≡ comes_before step number past }
{
    if is_below_zero(step) {
        past < number
    } else {
        number < past
    }
}

// At most so many numbers: the first one, and from it on each by a step further, as far as they come before the end.
#[tactic(auto, using(crate::proofs::Steps::steps_none))]
fn steps_from(
    alloc: Global,
    most: u32,
    step: i128,
    start: i128,
    past: i128,
) -> Result<List<Value>, NoMemory>
    ensures { IfOk result (λ list. list ≡ map value.Int (steps_from most step start past)) }
{
    let mut list = List::new(alloc);
    let mut number = start;
    for _ in 0..most {
        if !comes_before(step, number, past) {
            return Ok(list);
        }
        list.push(Value::Int(number))?;
        match number.checked_add(step) {
            Some(next) => number = next,
            None => return Ok(list),
        }
    }
    Ok(list)
}

fn range_made(
    machine: &mut Machine,
    alloc: Global,
    line: u32,
    start: i128,
    past: i128,
    step: i128,
) -> Result<Value, Refusal>
    ensures { Gives result machine.new (range_made line start past step machine.old) }
{
    let list = steps_from(alloc, 1_000_001, step, start, past)?;
    machine.list_made(line, list)
}

/// Whether a number is 0.
pub fn is_zero(number: i128) -> bool
    ensures { result ≡ is_zero number }
{
    number == 0
}

fn range_by(
    machine: &mut Machine,
    alloc: Global,
    line: u32,
    start: i128,
    past: i128,
    step: i128,
) -> Result<Value, Refusal>
    ensures { Gives result machine.new (range_by line start past step machine.old) }
{
    if is_zero(step) {
        return Err(fault(line, Kind::NumberRange));
    }
    range_made(machine, alloc, line, start, past, step)
}

fn range_of(
    machine: &mut Machine,
    alloc: Global,
    line: u32,
    numbers: &[i128],
) -> Result<Value, Refusal>
    ensures { Gives result machine.new (range_of line numbers.now machine.old) }
{
    match numbers {
        [past] => range_by(machine, alloc, line, 0, *past, 1),
        [start, past] => range_by(machine, alloc, line, *start, *past, 1),
        [start, past, step] => range_by(machine, alloc, line, *start, *past, *step),
        [] => Err(fault(line, Kind::WrongCount)),
        [_, _, _, _, ..] => Err(fault(line, Kind::WrongCount)),
    }
}

fn is_range_count(count: usize) -> bool
    ensures { result ≡ is_range_count count }
{
    0 < count && count < 4
}

/// Tells whether the number of arguments is wrong.
#[tactic(auto, unfolding(crate::specs::Numbers::counts))]
pub fn counts(machine: &Machine, line: u32, holds: bool) -> Result<(), Refusal>
    ensures { Gives result machine.now (counts line holds machine.now) }
{
    let _machine = machine;
    if holds {
        Ok(())
    } else {
        Err(fault(line, Kind::WrongCount))
    }
}

/// `range(a[, b[, c]])`.
#[tactic(auto, unfolding(crate::specs::Numbers::range_called))]
pub fn range_called(
    machine: &mut Machine,
    alloc: Global,
    line: u32,
    args: Arguments,
) -> Result<Value, Refusal>
    ensures { Gives result machine.new (range_called line args machine.old) }
{
    let values = unnamed(machine, line, args)?;
    counts(machine, line, is_range_count(values.len()))?;
    let numbers = machine.ints_of(alloc, line, values.as_slice())?;
    range_of(machine, alloc, line, numbers.as_slice())
}

// The least of a number and others.
fn least_of(first: i128, others: &[i128]) -> i128
    ensures { result ≡ least_of first others.now }
{
    let mut least = first;
    for number in others {
        if *number < least {
            least = *number;
        }
    }
    least
}

// The greatest of a number and others.
fn greatest_of(first: i128, others: &[i128]) -> i128
    ensures { result ≡ greatest_of first others.now }
{
    let mut greatest = first;
    for number in others {
        if greatest < *number {
            greatest = *number;
        }
    }
    greatest
}

fn least_made(machine: &Machine, line: u32, numbers: &[i128]) -> Result<Value, Refusal>
    ensures { Gives result machine.now (least_made line numbers.now machine.now) }
{
    let _machine = machine;
    match numbers {
        [] => Err(fault(line, Kind::WrongCount)),
        [first, rest @ ..] => Ok(Value::Int(least_of(*first, rest))),
    }
}

fn greatest_made(machine: &Machine, line: u32, numbers: &[i128]) -> Result<Value, Refusal>
    ensures { Gives result machine.now (greatest_made line numbers.now machine.now) }
{
    let _machine = machine;
    match numbers {
        [] => Err(fault(line, Kind::WrongCount)),
        [first, rest @ ..] => Ok(Value::Int(greatest_of(*first, rest))),
    }
}

/// `min(..)`.
#[tactic(auto, unfolding(crate::specs::Numbers::min_called))]
pub fn min_called(
    machine: &Machine,
    alloc: Global,
    line: u32,
    args: Arguments,
) -> Result<Value, Refusal>
    ensures { Gives result machine.now (min_called line args machine.now) }
{
    let values = unnamed(machine, line, args)?;
    let numbers = machine.ints_of(alloc, line, values.as_slice())?;
    least_made(machine, line, numbers.as_slice())
}

/// `max(..)`.
#[tactic(auto, unfolding(crate::specs::Numbers::max_called))]
pub fn max_called(
    machine: &Machine,
    alloc: Global,
    line: u32,
    args: Arguments,
) -> Result<Value, Refusal>
    ensures { Gives result machine.now (max_called line args machine.now) }
{
    let values = unnamed(machine, line, args)?;
    let numbers = machine.ints_of(alloc, line, values.as_slice())?;
    greatest_made(machine, line, numbers.as_slice())
}

// The one integer of a call.
#[tactic(auto, unfolding(crate::specs::Numbers::one_integer))]
fn one_integer(
    machine: &Machine,
    alloc: Global,
    line: u32,
    name: &[u8],
    args: &Arguments,
) -> Result<i128, Refusal>
    ensures { Gives result machine.now (one_integer line name.now args.now machine.now) }
{
    let value = one(machine, alloc, line, name, args)?;
    machine.int_of(line, value)
}

/// `int(i)`.
#[tactic(auto, unfolding(crate::specs::Numbers::int_called))]
pub fn int_called(
    machine: &Machine,
    alloc: Global,
    line: u32,
    args: &Arguments,
) -> Result<Value, Refusal>
    ensures { Gives result machine.now (int_called line args.now machine.now) }
{
    let number = one_integer(machine, alloc, line, b"i", args)?;
    Ok(Value::Int(number))
}

/// `str(i)`.
#[tactic(auto, unfolding(crate::specs::Numbers::str_called))]
pub fn str_called(
    machine: &mut Machine,
    alloc: Global,
    line: u32,
    args: &Arguments,
) -> Result<Value, Refusal>
    ensures { Gives result machine.new (str_called line args.now machine.old) }
{
    let number = one_integer(machine, alloc, line, b"i", args)?;
    let mut text = Text::new(alloc);
    text.dec(number)?;
    machine.text_made(line, Word::from_list(text.into_list()))
}

/// `bits_for(i)`.
#[tactic(auto, unfolding(crate::specs::Numbers::bits_for_called))]
pub fn bits_for_called(
    machine: &Machine,
    alloc: Global,
    line: u32,
    args: &Arguments,
) -> Result<Value, Refusal>
    ensures { Gives result machine.now (bits_for_called line args.now machine.now) }
{
    let number = one_integer(machine, alloc, line, b"i", args)?;
    Ok(Value::Int(fewest(number) as i128))
}

fn is_power(number: u128, exponent: u8) -> bool
    requires { exponent < 128 }
    ensures { result ≡ nat_eq number (2 ^ exponent) }
{
    number == 1u128 << exponent
}

// The greatest exponent below another whose power of 2 the number is.
#[tactic(auto, using(crate::proofs::Exponents::exponent_none))]
fn exponent_below(number: u128, count: u8) -> Option<u8>
    requires { count ≤ 128 }
    ensures { result ≡ exponent_below number count }
{
    for passed in 0..count {
        let exponent = count - 1 - passed;
        if is_power(number, exponent) {
            return Some(exponent);
        }
    }
    None
}

fn power_of_two(number: i128) -> Option<u8>
    ensures { result ≡ power_of_two number }
{
    if is_below_zero(number) {
        None
    } else {
        exponent_below(magnitude(number), 128)
    }
}

/// `log2_int(n)`.
#[tactic(auto, unfolding(crate::specs::Numbers::log2_int_called))]
pub fn log2_int_called(
    machine: &Machine,
    alloc: Global,
    line: u32,
    args: &Arguments,
) -> Result<Value, Refusal>
    ensures { Gives result machine.now (log2_int_called line args.now machine.now) }
{
    let number = one_integer(machine, alloc, line, b"n", args)?;
    match power_of_two(number) {
        Some(exponent) => Ok(Value::Int(exponent as i128)),
        None => Err(fault(line, Kind::NumberRange)),
    }
}
