//! Subscripts and slices.

ghost use Rattle.std.specs.Prelude.{◌≡◌, ◌≤◌, ◌<◌, option_copied, option_map, slice_get};
ghost use Rattle.lx_state.specs.Step.{Gives};
ghost use Rattle.lx_state.specs.Lists.{values_of};
ghost use Rattle.lx_ops.specs.Items.{bit_of, bits_made, bits_of, bits_there, bound, byte_of, clamped, item_in, item_of, item_or_fault, item_there, items_spent, listed, numbered_item, picked, place_in, slice_of};

use crate::exprs::{expression, exprs_of};
use crate::signs::{is_below_zero, magnitude};
use lx_fhdl::{Expr, ExprId};
use lx_objects::exprs::{expr_made, put_expr};
use lx_state::work::{fault, limit};
use lx_state::{Machine, Value};
use lx_text::faults::greatest;
use lx_text::{Kind, LimitKind, List, Refusal, Word};
use std::alloc::Global;

// The place of an item among so many; a negative one counts from the end.
fn place_in(items: usize, number: i128) -> Option<usize>
    ensures { result ≡ place_in items number }
{
    let far = magnitude(number);
    if far >= items as u128 {
        return None;
    }
    if is_below_zero(number) {
        Some(items - 1 - far as usize)
    } else {
        Some(far as usize)
    }
}

// A bound among so many bits.
fn clamped(bits: u8, number: i128) -> u8
    ensures { result ≡ clamped bits number }
{
    let far = magnitude(number).min(bits as u128) as u8;
    if !is_below_zero(number) {
        far
    } else if far < bits {
        bits - 1 - far
    } else {
        0
    }
}

/// The bits of an expression.
#[tactic(auto, unfolding(crate::specs::Items::bits_of))]
pub fn bits_of(machine: &Machine, line: u32, id: ExprId) -> Result<u8, Refusal>
    ensures { Gives result machine.now (bits_of line id machine.now) }
{
    match machine.shaped.shape(id) {
        Some(shape) => Ok(shape.bits),
        None => Err(fault(line, Kind::WrongKind)),
    }
}

// Makes some bits of an expression.
fn bits_made(
    machine: &mut Machine,
    line: u32,
    of: ExprId,
    low: u32,
    high: u32,
) -> Result<Value, Refusal>
    ensures { Gives result machine.new (bits_made line of low high machine.old) }
{
    expr_made(machine, line, 1, Expr::Slice { of, low, high })
}

// Makes one bit of an expression.
#[tactic(auto, unfolding(crate::specs::Items::bit_of))]
fn bit_of(machine: &mut Machine, line: u32, of: ExprId, number: i128) -> Result<Value, Refusal>
    ensures { Gives result machine.new (bit_of line of number machine.old) }
{
    let bits = bits_of(machine, line, of)?;
    match place_in(bits as usize, number) {
        Some(place) => bits_made(machine, line, of, place as u32, place as u32 + 1),
        None => Err(fault(line, Kind::BadSlice)),
    }
}

// The item at a place.
fn item_in<T: Copy>(items: &[T], number: i128) -> Option<T>
    ensures { result ≡ item_in items.now number }
{
    match place_in(items.len(), number) {
        Some(place) => items.get(place).copied(),
        None => None,
    }
}

// Makes one byte of a text a text.
#[tactic(auto, unfolding(crate::specs::Items::byte_of))]
fn byte_of(
    machine: &mut Machine,
    alloc: Global,
    line: u32,
    text: Value,
    number: i128,
) -> Result<Value, Refusal>
    ensures { Gives result machine.new (byte_of line text number machine.old) }
{
    let bytes = machine.text_of(alloc, line, text)?;
    match item_in(bytes.as_bytes(), number) {
        Some(byte) => {
            let word = Word::from_list(List::of_one(alloc, byte)?);
            machine.text_made(line, word)
        }
        None => Err(fault(line, Kind::BadSlice)),
    }
}

fn item_or_fault(
    machine: &Machine,
    line: u32,
    number: i128,
    values: Option<&List<Value>>,
) -> Result<Value, Refusal>
    ensures { Gives result machine.now (item_or_fault line number (option_copied values.entry) machine.now) }
{
    let _machine = machine;
    match values {
        None => Err(fault(line, Kind::WrongKind)),
        Some(values) => match item_in(values.as_slice(), number) {
            Some(item) => Ok(item),
            None => Err(fault(line, Kind::BadSlice)),
        },
    }
}

// One item of a list, a tuple or an Array.
#[tactic(auto, unfolding(crate::specs::Items::listed))]
fn listed(machine: &Machine, line: u32, at: usize, number: i128) -> Result<Value, Refusal>
    ensures { Gives result machine.now (listed line at number machine.now) }
{
    item_or_fault(machine, line, number, machine.array_at(Value::Array(at)))
}

// An item by an integer.
fn numbered_item(
    machine: &mut Machine,
    alloc: Global,
    line: u32,
    value: Value,
    number: i128,
) -> Result<Value, Refusal>
    ensures { Gives result machine.new (numbered_item line value number machine.old) }
{
    match value {
        Value::List(at) => listed(machine, line, at, number),
        Value::Tuple(at) => listed(machine, line, at, number),
        Value::Array(at) => listed(machine, line, at, number),
        Value::Text(at) => byte_of(machine, alloc, line, Value::Text(at), number),
        Value::Expr(of) => bit_of(machine, line, of, number),
        _ => Err(fault(line, Kind::WrongKind)),
    }
}

// Counts a read of an Array of so many items.
#[tactic(auto, unfolding(crate::specs::Items::items_spent))]
fn items_spent(machine: &mut Machine, line: u32, items: usize) -> Result<(), Refusal>
    ensures { Gives result machine.new (items_spent line items machine.old) }
{
    if items as u64 > greatest(LimitKind::Nodes) as u64 {
        return Err(limit(line, LimitKind::Nodes));
    }
    machine.spend_nodes(line, 1 + items as u32)
}

// An item of an Array by an expression.
#[tactic(auto, unfolding(crate::specs::Items::picked))]
fn picked(
    machine: &mut Machine,
    alloc: Global,
    line: u32,
    array: Value,
    index: ExprId,
) -> Result<Value, Refusal>
    ensures { Gives result machine.new (picked line array index machine.old) }
{
    let values = machine.array_of(alloc, line, array)?;
    let items = exprs_of(machine, alloc, line, values.as_slice())?;
    let id = put_expr(machine, line, Expr::Pick { items, index })?;
    items_spent(machine, line, values.len())?;
    Ok(Value::Expr(id))
}

/// A subscript: an item of a list, a tuple, an Array or a text, a bit of an expression of FHDL, or an item of an Array by
/// an expression.
#[tactic(auto, unfolding(crate::specs::Items::item_of))]
pub fn item_of(
    machine: &mut Machine,
    alloc: Global,
    line: u32,
    value: Value,
    index: Value,
) -> Result<Value, Refusal>
    ensures { Gives result machine.new (item_of line value index machine.old) }
{
    match index {
        Value::Int(number) => numbered_item(machine, alloc, line, value, number),
        Value::Expr(id) => picked(machine, alloc, line, value, id),
        _ => Err(fault(line, Kind::WrongKind)),
    }
}

// A bound of a slice, which may be missing.
#[tactic(auto, unfolding(crate::specs::Items::bound))]
fn bound(
    machine: &Machine,
    line: u32,
    missing: u8,
    bits: u8,
    value: Option<Value>,
) -> Result<u8, Refusal>
    ensures { Gives result machine.now (bound line missing bits value machine.now) }
{
    match value {
        None => Ok(missing),
        Some(value) => {
            let number = machine.int_of(line, value)?;
            Ok(clamped(bits, number))
        }
    }
}

/// A slice of an expression of FHDL.
#[tactic(auto, unfolding(crate::specs::Items::slice_of))]
pub fn slice_of(
    machine: &mut Machine,
    line: u32,
    value: Value,
    low: Option<Value>,
    high: Option<Value>,
) -> Result<Value, Refusal>
    ensures { Gives result machine.new (slice_of line value low high machine.old) }
{
    match expression(value) {
        Some(of) => {
            let bits = bits_of(machine, line, of)?;
            let first = bound(machine, line, 0, bits, low)?;
            let past = bound(machine, line, bits, bits, high)?;
            bits_made(machine, line, of, first as u32, past as u32)
        }
        None => Err(fault(line, Kind::WrongKind)),
    }
}
