//! Built-in names on lists, tuples and texts.

ghost use Rattle.std.specs.Prelude.{◌≡◌, IfOk, length, reverse, option_copied, option_map};
ghost use Rattle.lx_state.specs.Step.{Gives};
ghost use Rattle.lx_builtins.specs.Sequences.{count_of, counted, enumerate_called, joint_pairs, len_called, list_called, numbered_pairs, pair_made, reversed_called, zip_called};

use crate::arguments::{Arguments, one, two};
use lx_state::work::fault;
use lx_state::{Machine, Value};
use lx_text::{Kind, List, NoMemory, Refusal, Word};
use std::alloc::Global;

fn list_length(items: Option<&List<Value>>) -> Option<usize>
    ensures { result ≡ option_map length (option_copied items.entry) }
{
    match items {
        Some(items) => Some(items.len()),
        None => None,
    }
}

fn word_length(bytes: Option<&Word>) -> Option<usize>
    ensures { result ≡ option_map length (option_copied bytes.entry) }
{
    match bytes {
        Some(bytes) => Some(bytes.len()),
        None => None,
    }
}

// The items of a list, a tuple or an Array, the bytes of a text, the bits of an expression.
fn count_of(machine: &Machine, value: Value) -> Option<usize>
    ensures { result ≡ count_of machine.now value }
{
    match value {
        Value::Text(at) => word_length(machine.text_at(Value::Text(at))),
        Value::List(at) => list_length(machine.items_at(Value::List(at))),
        Value::Tuple(at) => list_length(machine.items_at(Value::Tuple(at))),
        Value::Array(at) => list_length(machine.array_at(Value::Array(at))),
        Value::Expr(id) => match machine.shaped.shape(id) {
            Some(shape) => Some(shape.bits as usize),
            None => None,
        },
        _ => None,
    }
}

#[tactic(auto, unfolding(crate::specs::Sequences::counted))]
fn counted(machine: &Machine, line: u32, value: Value) -> Result<Value, Refusal>
    ensures { Gives result machine.now (counted line value machine.now) }
{
    match count_of(machine, value) {
        Some(count) => Ok(Value::Int(count as i128)),
        None => Err(fault(line, Kind::WrongKind)),
    }
}

/// `len(x)`.
#[tactic(auto, unfolding(crate::specs::Sequences::len_called))]
pub fn len_called(
    machine: &Machine,
    alloc: Global,
    line: u32,
    args: &Arguments,
) -> Result<Value, Refusal>
    ensures { Gives result machine.now (len_called line args.now machine.now) }
{
    let value = one(machine, alloc, line, b"x", args)?;
    counted(machine, line, value)
}

/// `list(l)`.
#[tactic(auto, unfolding(crate::specs::Sequences::list_called))]
pub fn list_called(
    machine: &mut Machine,
    alloc: Global,
    line: u32,
    args: &Arguments,
) -> Result<Value, Refusal>
    ensures { Gives result machine.new (list_called line args.now machine.old) }
{
    let value = one(machine, alloc, line, b"l", args)?;
    let items = machine.items_of(alloc, line, value)?;
    machine.list_made(line, items)
}

// The items from the last one to the first.
fn backwards(alloc: Global, items: &[Value]) -> Result<List<Value>, NoMemory>
    ensures { IfOk result (λ list. list ≡ reverse items.now) }
{
    let list: Vec<Value> = items.iter().rev().copied().collect(alloc)?;
    Ok(List::from_vec(list))
}

/// `reversed(l)`.
#[tactic(auto, unfolding(crate::specs::Sequences::reversed_called))]
pub fn reversed_called(
    machine: &mut Machine,
    alloc: Global,
    line: u32,
    args: &Arguments,
) -> Result<Value, Refusal>
    ensures { Gives result machine.new (reversed_called line args.now machine.old) }
{
    let value = one(machine, alloc, line, b"l", args)?;
    let items = machine.items_of(alloc, line, value)?;
    let list = backwards(alloc, items.as_slice())?;
    machine.list_made(line, list)
}

#[tactic(auto, unfolding(crate::specs::Sequences::pair_made))]
fn pair_made(
    machine: &mut Machine,
    alloc: Global,
    line: u32,
    first: Value,
    second: Value,
) -> Result<Value, Refusal>
    ensures { Gives result machine.new (pair_made line first second machine.old) }
{
    let mut pair = List::of_one(alloc, first)?;
    pair.push(second)?;
    machine.tuple_made(line, pair)
}

// Each item behind its place.
#[tactic(auto, unfolding(crate::specs::Sequences::numbered_pairs))]
fn numbered_pairs(
    machine: &mut Machine,
    alloc: Global,
    line: u32,
    items: &[Value],
) -> Result<List<Value>, Refusal>
    ensures { Gives result machine.new (numbered_pairs line 0 items.now machine.old) }
{
    let mut pairs = List::new(alloc);
    for (place, item) in items.iter().enumerate() {
        let pair = pair_made(machine, alloc, line, Value::Int(place as i128), *item)?;
        if pairs.push(pair).is_err() {
            return Err(Refusal::NoMemory);
        }
    }
    Ok(pairs)
}

/// `enumerate(l)`.
#[tactic(auto, unfolding(crate::specs::Sequences::enumerate_called))]
pub fn enumerate_called(
    machine: &mut Machine,
    alloc: Global,
    line: u32,
    args: &Arguments,
) -> Result<Value, Refusal>
    ensures { Gives result machine.new (enumerate_called line args.now machine.old) }
{
    let value = one(machine, alloc, line, b"l", args)?;
    let items = machine.items_of(alloc, line, value)?;
    let pairs = numbered_pairs(machine, alloc, line, items.as_slice())?;
    machine.list_made(line, pairs)
}

// The items of two lists side by side, as far as the shorter one goes.
#[tactic(auto, unfolding(crate::specs::Sequences::joint_pairs), using(crate::proofs::Joint::joint_ended))]
fn joint_pairs(
    machine: &mut Machine,
    alloc: Global,
    line: u32,
    first: &[Value],
    second: &[Value],
) -> Result<List<Value>, Refusal>
    ensures { Gives result machine.new (joint_pairs line first.now second.now machine.old) }
{
    let mut pairs = List::new(alloc);
    for (place, item) in first.iter().enumerate() {
        if place >= second.len() {
            return Ok(pairs);
        }
        let pair = pair_made(machine, alloc, line, *item, second[place])?;
        if pairs.push(pair).is_err() {
            return Err(Refusal::NoMemory);
        }
    }
    Ok(pairs)
}

/// `zip(l, m)`.
#[tactic(auto, unfolding(crate::specs::Sequences::zip_called))]
pub fn zip_called(
    machine: &mut Machine,
    alloc: Global,
    line: u32,
    args: &Arguments,
) -> Result<Value, Refusal>
    ensures { Gives result machine.new (zip_called line args.now machine.old) }
{
    let (one, other) = two(machine, alloc, line, b"l", b"m", args)?;
    let first = machine.items_of(alloc, line, one)?;
    let second = machine.items_of(alloc, line, other)?;
    let pairs = joint_pairs(machine, alloc, line, first.as_slice(), second.as_slice())?;
    machine.list_made(line, pairs)
}
