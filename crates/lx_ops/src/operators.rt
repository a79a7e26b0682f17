//! Operators between two operands.

ghost use Rattle.std.specs.Prelude.{◌≡◌, ◌+◌, ◌*◌, ◌≤◌, ◌++◌, length, nat_lt, IfOk};
ghost use Rattle.lx_text.specs.Limits.{limit_number};
ghost use Rattle.lx_text.specs.declared.faults.LimitKind.TheVariants as limits;
ghost use Rattle.lx_state.specs.Step.{Gives};
ghost use Rattle.lx_ops.specs.Binary.{beside_list, beside_node, beside_number, beside_text, beside_tuple, binary, copies, is_product, is_sum, list_repeated, lists_joined, node_made, node_op, number_made, operands_of, only_where, operated, python, repeated, texts_joined, times, tuples_joined};

use crate::exprs::{binary_made, in_range, numbered};
use crate::signs::{is_below_zero, magnitude};
use lx_state::work::{fault, limit};
use lx_state::{Machine, Value};
use lx_tables::Op;
use lx_text::faults::greatest;
use lx_text::{Kind, LimitKind, List, NoMemory, Refusal, Word};
use lx_value::{NumFault, PyOp, int_op};
use std::alloc::Global;

/// What the two operands of an operator are.
#[derive(Clone, Copy)]
pub enum Operands {
    Numbers(i128, i128),
    /// An expression, and another one or an integer.
    Nodes,
    Texts,
    Lists,
    Tuples,
    /// A list and an integer.
    Repeated(Value, i128),
    Others,
}

// FHDL's operator.
fn node_op(op: PyOp) -> Option<Op>
    ensures { result ≡ node_op op }
{
    match op {
        PyOp::Add => Some(Op::Add),
        PyOp::Sub => Some(Op::Sub),
        PyOp::Mul => Some(Op::Mul),
        PyOp::FloorDiv => None,
        PyOp::Mod => None,
        PyOp::Pow => None,
        PyOp::Shl => Some(Op::Shl),
        PyOp::Shr => Some(Op::Shr),
        PyOp::And => Some(Op::And),
        PyOp::Or => Some(Op::Or),
        PyOp::Xor => Some(Op::Xor),
    }
}

/// Python's operator of two integers in range.
pub fn python(op: PyOp, first: i128, second: i128) -> Result<i128, NumFault>
    ensures { result ≡ python op first second }
{
    match (in_range(first), in_range(second)) {
        (Ok(first), Ok(second)) => int_op(op, first, second),
        (Ok(_), Err(wrong)) => Err(wrong),
        (Err(wrong), _) => Err(wrong),
    }
}

/// Python's operator of two integers.
#[tactic(auto, unfolding(crate::specs::Binary::number_made))]
pub fn number_made(
    machine: &Machine,
    line: u32,
    op: PyOp,
    first: i128,
    second: i128,
) -> Result<Value, Refusal>
    ensures { Gives result machine.now (number_made line op first second machine.now) }
{
    let number = numbered(machine, line, python(op, first, second))?;
    Ok(Value::Int(number))
}

// FHDL's operator.
#[tactic(auto, unfolding(crate::specs::Binary::node_made))]
fn node_made(
    machine: &mut Machine,
    line: u32,
    op: PyOp,
    first: Value,
    second: Value,
) -> Result<Value, Refusal>
    ensures { Gives result machine.new (node_made line op first second machine.old) }
{
    match node_op(op) {
        Some(op) => binary_made(machine, line, op, first, second),
        None => Err(fault(line, Kind::WrongKind)),
    }
}

// There is this operator alone.
#[tactic(auto, unfolding(crate::specs::Binary::only_where))]
fn only_where(machine: &Machine, line: u32, holds: bool) -> Result<(), Refusal>
    ensures { Gives result machine.now (only_where line holds machine.now) }
{
    let _machine = machine;
    if holds {
        Ok(())
    } else {
        Err(fault(line, Kind::WrongKind))
    }
}

// Adds items behind those that stand already.
fn append<T: Copy + Drop>(into: &mut List<T>, items: &[T]) -> Result<(), NoMemory>
    ensures { IfOk result (λ _. into.new ≡ into.old ++ items.now) }
{
    for item in items {
        into.push(*item)?;
    }
    Ok(())
}

// The bytes of one word, then of another.
fn joined_words(alloc: Global, first: &Word, second: &Word) -> Result<Word, NoMemory>
    ensures { IfOk result (λ word. word ≡ first.now ++ second.now) }
{
    let mut bytes = List::new(alloc);
    append(&mut bytes, first.as_bytes())?;
    append(&mut bytes, second.as_bytes())?;
    Ok(Word::from_list(bytes))
}

#[tactic(auto, unfolding(crate::specs::Binary::texts_joined))]
fn texts_joined(
    machine: &mut Machine,
    alloc: Global,
    line: u32,
    op: PyOp,
    first: Value,
    second: Value,
) -> Result<Value, Refusal>
    ensures { Gives result machine.new (texts_joined line op first second machine.old) }
{
    only_where(machine, line, is_sum(op))?;
    let before = machine.text_of(alloc, line, first)?;
    let after = machine.text_of(alloc, line, second)?;
    let bytes = joined_words(alloc, &before, &after)?;
    machine.text_made(line, bytes)
}

#[tactic(auto, unfolding(crate::specs::Binary::lists_joined))]
fn lists_joined(
    machine: &mut Machine,
    alloc: Global,
    line: u32,
    op: PyOp,
    first: Value,
    second: Value,
) -> Result<Value, Refusal>
    ensures { Gives result machine.new (lists_joined line op first second machine.old) }
{
    only_where(machine, line, is_sum(op))?;
    let mut items = machine.items_of(alloc, line, first)?;
    let after = machine.items_of(alloc, line, second)?;
    append(&mut items, after.as_slice())?;
    machine.list_made(line, items)
}

#[tactic(auto, unfolding(crate::specs::Binary::tuples_joined))]
fn tuples_joined(
    machine: &mut Machine,
    alloc: Global,
    line: u32,
    op: PyOp,
    first: Value,
    second: Value,
) -> Result<Value, Refusal>
    ensures { Gives result machine.new (tuples_joined line op first second machine.old) }
{
    only_where(machine, line, is_sum(op))?;
    let mut items = machine.items_of(alloc, line, first)?;
    let after = machine.items_of(alloc, line, second)?;
    append(&mut items, after.as_slice())?;
    machine.tuple_made(line, items)
}

// How often a number repeats a list.
fn times(number: i128) -> u128
    ensures { result ≡ times number }
{
    if is_below_zero(number) {
        0
    } else {
        magnitude(number)
    }
}

// The items so often.
#[tactic(auto, unfolding(crate::specs::Binary::copies))]
fn copies(alloc: Global, often: u128, items: &[Value]) -> Result<List<Value>, NoMemory>
    ensures { IfOk result (λ list. list ≡ copies often items.now) }
{
    let mut list = List::new(alloc);
    for _ in 0..often {
        append(&mut list, items)?;
    }
    Ok(list)
}

// Whether so many items, so often, are more than the work that a description may do.
fn is_too_long(often: u128, items: usize) -> bool
    ensures { result ≡ nat_lt (limit_number limits.Work) (often * items) }
{
    match often.checked_mul(items as u128) {
        Some(total) => total > greatest(LimitKind::Work) as u128,
        None => true,
    }
}

// A list of some items, so often.
#[tactic(auto, using(crate::proofs::Copies::copies_of_nothing))]
fn repeated(
    machine: &mut Machine,
    alloc: Global,
    line: u32,
    often: u128,
    items: List<Value>,
) -> Result<Value, Refusal>
    ensures { Gives result machine.new (repeated line often items machine.old) }
{
    if is_too_long(often, items.len()) {
        return Err(limit(line, LimitKind::Work));
    }
    if items.is_empty() {
        return machine.list_made(line, items);
    }
    let list = copies(alloc, often, items.as_slice())?;
    machine.list_made(line, list)
}

#[tactic(auto, unfolding(crate::specs::Binary::list_repeated))]
fn list_repeated(
    machine: &mut Machine,
    alloc: Global,
    line: u32,
    op: PyOp,
    list: Value,
    number: i128,
) -> Result<Value, Refusal>
    ensures { Gives result machine.new (list_repeated line op list number machine.old) }
{
    only_where(machine, line, is_product(op))?;
    let items = machine.list_of(alloc, line, list)?;
    repeated(machine, alloc, line, times(number), items)
}

fn beside_number(first: i128, second: Value) -> Operands
    ensures { result ≡ beside_number first second }
{
    match second {
        Value::Int(number) => Operands::Numbers(first, number),
        Value::Expr(_) => Operands::Nodes,
        Value::List(at) => Operands::Repeated(Value::List(at), first),
        _ => Operands::Others,
    }
}

fn beside_node(second: Value) -> Operands
    ensures { result ≡ beside_node second }
{
    match second {
        Value::Int(_) => Operands::Nodes,
        Value::Expr(_) => Operands::Nodes,
        _ => Operands::Others,
    }
}

fn beside_list(first: Value, second: Value) -> Operands
    ensures { result ≡ beside_list first second }
{
    match second {
        Value::Int(number) => Operands::Repeated(first, number),
        Value::List(_) => Operands::Lists,
        _ => Operands::Others,
    }
}

fn beside_tuple(second: Value) -> Operands
    ensures { result ≡ beside_tuple second }
{
    match second {
        Value::Tuple(_) => Operands::Tuples,
        _ => Operands::Others,
    }
}

fn beside_text(second: Value) -> Operands
    ensures { result ≡ beside_text second }
{
    match second {
        Value::Text(_) => Operands::Texts,
        _ => Operands::Others,
    }
}

// What the operands are.
fn operands_of(first: Value, second: Value) -> Operands
    ensures { result ≡ operands_of first second }
{
    match first {
        Value::Int(number) => beside_number(number, second),
        Value::Expr(_) => beside_node(second),
        Value::List(at) => beside_list(Value::List(at), second),
        Value::Tuple(_) => beside_tuple(second),
        Value::Text(_) => beside_text(second),
        _ => Operands::Others,
    }
}

fn is_sum(op: PyOp) -> bool
    ensures { result ≡ is_sum op }
{
    match op {
        PyOp::Add => true,
        _ => false,
    }
}

fn is_product(op: PyOp) -> bool
    ensures { result ≡ is_product op }
{
    match op {
        PyOp::Mul => true,
        _ => false,
    }
}

/// An operator between two operands: of integers and, as a sum or a product, of texts, lists and tuples as Python has
/// it; with an expression of FHDL on one side it makes an expression.
#[tactic(auto, unfolding(crate::specs::Binary::binary))]
pub fn binary(
    machine: &mut Machine,
    alloc: Global,
    line: u32,
    op: PyOp,
    first: Value,
    second: Value,
) -> Result<Value, Refusal>
    ensures { Gives result machine.new (binary line op first second machine.old) }
{
    match operands_of(first, second) {
        Operands::Numbers(a, b) => number_made(machine, line, op, a, b),
        Operands::Nodes => node_made(machine, line, op, first, second),
        Operands::Texts => texts_joined(machine, alloc, line, op, first, second),
        Operands::Lists => lists_joined(machine, alloc, line, op, first, second),
        Operands::Tuples => tuples_joined(machine, alloc, line, op, first, second),
        Operands::Repeated(list, number) => {
            list_repeated(machine, alloc, line, op, list, number)
        }
        Operands::Others => Err(fault(line, Kind::WrongKind)),
    }
}
