//! Comparisons, truth and signs.

ghost use Rattle.std.specs.Prelude.{◌≡◌, option_copied, option_map};
ghost use Rattle.lx_state.specs.Step.{Gives};
ghost use Rattle.lx_ops.specs.Compare.{among, as_nothing, as_number, as_text, compare, compared, comparison_made, contained, equal, holds, in_order, is_expression, is_filled, is_plain, negated, node_comparison, node_signed, number_signed, ordered, prefixed, same, same_bytes, truth, truth_of_compared, truth_value, unequal, unlike};

use crate::exprs::{binary_made, unary_made};
use crate::operators::number_made;
use lx_fhdl::ExprId;
use lx_state::work::fault;
use lx_state::{Machine, Value};
use lx_tables::Op;
use lx_text::{Kind, List, Refusal, Word};
use lx_value::PyOp;
use std::alloc::Global;

/// How two operands are compared.
#[derive(Clone, Copy)]
pub enum Comparison {
    Equal,
    Unequal,
    Less,
    LessEqual,
    Greater,
    GreaterEqual,
    /// Whether the right one holds the left one.
    In,
}

/// A sign before an operand.
#[derive(Clone, Copy)]
pub enum Sign {
    Minus,
    Plus,
    Tilde,
}

/// The value that says whether something holds.
pub fn truth_value(holds: bool) -> Value
    ensures { result ≡ truth_value holds }
{
    if holds { Value::Int(1) } else { Value::Int(0) }
}

// Whether there are items, where there is a list.
fn list_filled(items: Option<&List<Value>>) -> Option<bool>
    ensures { result ≡ option_map is_filled (option_copied items.entry) }
{
    match items {
        Some(items) => Some(!items.is_empty()),
        None => None,
    }
}

// Whether there are bytes, where there is a text.
fn word_filled(bytes: Option<&Word>) -> Option<bool>
    ensures { result ≡ option_map is_filled (option_copied bytes.entry) }
{
    match bytes {
        Some(bytes) => Some(bytes.len() > 0),
        None => None,
    }
}

// Whether a value is true, where it has a truth.
fn holds(machine: &Machine, value: Value) -> Option<bool>
    ensures { result ≡ holds machine.now value }
{
    match value {
        Value::Nothing => Some(false),
        Value::Int(number) => Some(number != 0),
        Value::Text(at) => word_filled(machine.text_at(Value::Text(at))),
        Value::List(at) => list_filled(machine.items_at(Value::List(at))),
        Value::Tuple(at) => list_filled(machine.items_at(Value::Tuple(at))),
        _ => None,
    }
}

/// Tells whether a value is true.
#[tactic(auto, unfolding(crate::specs::Compare::truth))]
pub fn truth(machine: &Machine, line: u32, value: Value) -> Result<bool, Refusal>
    ensures { Gives result machine.now (truth line value machine.now) }
{
    match holds(machine, value) {
        Some(holds) => Ok(holds),
        None => Err(fault(line, Kind::WrongKind)),
    }
}

/// `not`.
#[tactic(auto, unfolding(crate::specs::Compare::negated))]
pub fn negated(machine: &Machine, line: u32, value: Value) -> Result<Value, Refusal>
    ensures { Gives result machine.now (negated line value machine.now) }
{
    let held = truth(machine, line, value)?;
    Ok(truth_value(!held))
}

// Whether two texts are the same, where both are there.
fn same_bytes(first: Option<&Word>, second: Option<&Word>) -> Option<bool>
    ensures { result ≡ same_bytes (option_copied first.entry) (option_copied second.entry) }
{
    match (first, second) {
        (Some(first), Some(second)) => Some(first.is(second.as_bytes())),
        (Some(_), None) => None,
        (None, _) => None,
    }
}

// Whether it is an integer, a text or None.
fn is_plain(value: Value) -> bool
    ensures { result ≡ is_plain value }
{
    match value {
        Value::Nothing => true,
        Value::Int(_) => true,
        Value::Text(_) => true,
        _ => false,
    }
}

// Beside a value of another kind.
fn unlike(value: Value) -> Option<bool>
    ensures { result ≡ unlike value }
{
    if is_plain(value) { Some(false) } else { None }
}

fn as_nothing(value: Value) -> Option<bool>
    ensures { result ≡ as_nothing value }
{
    match value {
        Value::Nothing => Some(true),
        _ => unlike(value),
    }
}

fn as_number(number: i128, value: Value) -> Option<bool>
    ensures { result ≡ as_number number value }
{
    match value {
        Value::Int(other) => Some(number == other),
        _ => unlike(value),
    }
}

fn as_text(machine: &Machine, text: Value, value: Value) -> Option<bool>
    ensures { result ≡ as_text machine.now text value }
{
    match value {
        Value::Text(at) => same_bytes(machine.text_at(text), machine.text_at(Value::Text(at))),
        _ => unlike(value),
    }
}

// Whether two integers, texts or Nones are equal.
fn same(machine: &Machine, first: Value, second: Value) -> Option<bool>
    ensures { result ≡ same machine.now first second }
{
    match first {
        Value::Nothing => as_nothing(second),
        Value::Int(number) => as_number(number, second),
        Value::Text(at) => as_text(machine, Value::Text(at), second),
        _ => None,
    }
}

/// `==` of values.
#[tactic(auto, unfolding(crate::specs::Compare::equal))]
fn equal(machine: &Machine, line: u32, first: Value, second: Value) -> Result<bool, Refusal>
    ensures { Gives result machine.now (equal line first second machine.now) }
{
    match same(machine, first, second) {
        Some(same) => Ok(same),
        None => Err(fault(line, Kind::WrongKind)),
    }
}

// Whether an item is equal, from the left.
#[tactic(auto, unfolding(crate::specs::Compare::among))]
fn among(machine: &Machine, line: u32, first: Value, items: &[Value]) -> Result<bool, Refusal>
    ensures { Gives result machine.now (among line first items.now machine.now) }
{
    for item in items {
        if equal(machine, line, first, *item)? {
            return Ok(true);
        }
    }
    Ok(false)
}

// `in`.
#[tactic(auto, unfolding(crate::specs::Compare::contained))]
fn contained(
    machine: &Machine,
    alloc: Global,
    line: u32,
    first: Value,
    second: Value,
) -> Result<bool, Refusal>
    ensures { Gives result machine.now (contained line first second machine.now) }
{
    let items = machine.items_of(alloc, line, second)?;
    among(machine, line, first, items.as_slice())
}

// FHDL's operator.
fn node_comparison(by: Comparison) -> Option<Op>
    ensures { result ≡ node_comparison by }
{
    match by {
        Comparison::Equal => Some(Op::Eq),
        Comparison::Unequal => Some(Op::Ne),
        Comparison::Less => Some(Op::Lt),
        Comparison::LessEqual => Some(Op::Le),
        Comparison::Greater => Some(Op::Gt),
        Comparison::GreaterEqual => Some(Op::Ge),
        Comparison::In => None,
    }
}

// The order of two integers.
fn ordered(by: Comparison, first: i128, second: i128) -> bool
    ensures { result ≡ ordered by first second }
{
    match by {
        Comparison::Less => first < second,
        Comparison::LessEqual => first <= second,
        Comparison::Greater => first > second,
        Comparison::GreaterEqual => first >= second,
        Comparison::Equal | Comparison::Unequal | Comparison::In => false,
    }
}

#[tactic(auto, unfolding(crate::specs::Compare::in_order))]
fn in_order(
    machine: &Machine,
    line: u32,
    by: Comparison,
    first: Value,
    second: Value,
) -> Result<bool, Refusal>
    ensures { Gives result machine.now (in_order line by first second machine.now) }
{
    let a = machine.int_of(line, first)?;
    let b = machine.int_of(line, second)?;
    Ok(ordered(by, a, b))
}

#[tactic(auto, unfolding(crate::specs::Compare::unequal))]
fn unequal(machine: &Machine, line: u32, first: Value, second: Value) -> Result<bool, Refusal>
    ensures { Gives result machine.now (unequal line first second machine.now) }
{
    let found = equal(machine, line, first, second)?;
    Ok(!found)
}

// What Python compares.
fn compared(
    machine: &Machine,
    alloc: Global,
    line: u32,
    by: Comparison,
    first: Value,
    second: Value,
) -> Result<bool, Refusal>
    ensures { Gives result machine.now (compared line by first second machine.now) }
{
    match by {
        Comparison::In => contained(machine, alloc, line, first, second),
        Comparison::Equal => equal(machine, line, first, second),
        Comparison::Unequal => unequal(machine, line, first, second),
        Comparison::Less | Comparison::LessEqual | Comparison::Greater | Comparison::GreaterEqual =>
            in_order(machine, line, by, first, second),
    }
}

#[tactic(auto, unfolding(crate::specs::Compare::truth_of_compared))]
fn truth_of_compared(
    machine: &Machine,
    alloc: Global,
    line: u32,
    by: Comparison,
    first: Value,
    second: Value,
) -> Result<Value, Refusal>
    ensures { Gives result machine.now (truth_of_compared line by first second machine.now) }
{
    let held = compared(machine, alloc, line, by, first, second)?;
    Ok(truth_value(held))
}

fn is_expression(value: Value) -> bool
    ensures { result ≡ is_expression value }
{
    match value {
        Value::Expr(_) => true,
        _ => false,
    }
}

/// A comparison: of integers, texts and None as Python has it; with an expression of FHDL on one side it makes an
/// expression, but `in` never does.
#[tactic(auto, unfolding(crate::specs::Compare::compare))]
pub fn compare(
    machine: &mut Machine,
    alloc: Global,
    line: u32,
    by: Comparison,
    first: Value,
    second: Value,
) -> Result<Value, Refusal>
    ensures { Gives result machine.new (compare line by first second machine.old) }
{
    match node_comparison(by) {
        Some(op) => {
            if is_expression(first) || is_expression(second) {
                binary_made(machine, line, op, first, second)
            } else {
                truth_of_compared(machine, alloc, line, by, first, second)
            }
        }
        None => truth_of_compared(machine, alloc, line, by, first, second),
    }
}

fn number_signed(machine: &Machine, line: u32, sign: Sign, number: i128) -> Result<Value, Refusal>
    ensures { Gives result machine.now (number_signed line sign number machine.now) }
{
    match sign {
        Sign::Minus => number_made(machine, line, PyOp::Sub, 0, number),
        Sign::Plus => Ok(Value::Int(number)),
        Sign::Tilde => number_made(machine, line, PyOp::Sub, -1, number),
    }
}

fn node_signed(machine: &mut Machine, line: u32, sign: Sign, of: ExprId) -> Result<Value, Refusal>
    ensures { Gives result machine.new (node_signed line sign of machine.old) }
{
    match sign {
        Sign::Minus => unary_made(machine, line, Op::Neg, of),
        Sign::Plus => Err(fault(line, Kind::WrongKind)),
        Sign::Tilde => unary_made(machine, line, Op::Not, of),
    }
}

/// A sign before an integer or an expression of FHDL; a plus stands before integers alone.
#[tactic(auto, unfolding(crate::specs::Compare::prefixed))]
pub fn prefixed(
    machine: &mut Machine,
    line: u32,
    sign: Sign,
    value: Value,
) -> Result<Value, Refusal>
    ensures { Gives result machine.new (prefixed line sign value machine.old) }
{
    match value {
        Value::Int(number) => number_signed(machine, line, sign, number),
        Value::Expr(of) => node_signed(machine, line, sign, of),
        _ => Err(fault(line, Kind::WrongKind)),
    }
}
