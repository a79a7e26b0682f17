//! Built-in names that make expressions of FHDL.

ghost use Rattle.std.specs.Prelude.{◌≡◌};
ghost use Rattle.std.specs.List.{list_all};
ghost use Rattle.lx_state.specs.Step.{Gives};
ghost use Rattle.lx_builtins.specs.Exprs.{array_called, array_from, array_of_list, cat_called, constant_called, constant_of, is_operand, kept, mux_called, operands_only, plain_constant, replicate_called, shaped_constant, stated, stated_by, stated_pair};

use crate::arguments::{Arguments, one_or_two, three, two, unnamed};
use crate::numbers::{counts, is_zero};
use lx_fhdl::Expr;
use lx_objects::exprs::expr_made;
use lx_ops::exprs::{expr_of, exprs_of, fewest};
use lx_ops::signs::{is_below_zero, magnitude};
use lx_state::work::fault;
use lx_state::{Machine, Value};
use lx_text::{Kind, Refusal};
use std::alloc::Global;

/// A stated shape.
#[derive(Clone, Copy)]
pub struct StatedShape {
    pub bits: i128,
    pub signed: bool,
}

fn stated_by(machine: &Machine, line: u32, numbers: &[i128]) -> Result<StatedShape, Refusal>
    ensures { Gives result machine.now (stated_by line numbers.now machine.now) }
{
    let _machine = machine;
    match numbers {
        [bits, signed] => Ok(StatedShape {
            bits: *bits,
            signed: !is_zero(*signed),
        }),
        [] => Err(fault(line, Kind::WrongKind)),
        [_] => Err(fault(line, Kind::WrongKind)),
        [_, _, _, ..] => Err(fault(line, Kind::WrongKind)),
    }
}

#[tactic(auto, unfolding(crate::specs::Exprs::stated_pair))]
fn stated_pair(
    machine: &Machine,
    alloc: Global,
    line: u32,
    value: Value,
) -> Result<StatedShape, Refusal>
    ensures { Gives result machine.now (stated_pair line value machine.now) }
{
    let items = machine.items_of(alloc, line, value)?;
    let numbers = machine.ints_of(alloc, line, items.as_slice())?;
    stated_by(machine, line, numbers.as_slice())
}

/// A stated shape: a number of bits, or a pair of it and whether the values are signed.
#[tactic(auto, unfolding(crate::specs::Exprs::stated))]
pub fn stated(
    machine: &Machine,
    alloc: Global,
    line: u32,
    value: Value,
) -> Result<StatedShape, Refusal>
    ensures { Gives result machine.now (stated line value machine.now) }
{
    match value {
        Value::Int(bits) => Ok(StatedShape {
            bits,
            signed: false,
        }),
        Value::Tuple(at) => stated_pair(machine, alloc, line, Value::Tuple(at)),
        _ => Err(fault(line, Kind::WrongKind)),
    }
}

// A stated width or count as it is kept.
fn kept(number: i128) -> u32
    ensures { result ≡ kept number }
{
    if is_below_zero(number) {
        0
    } else {
        magnitude(number).min(4_294_967_295) as u32
    }
}

fn plain_constant(machine: &mut Machine, line: u32, number: i128) -> Result<Value, Refusal>
    ensures { Gives result machine.new (plain_constant line number machine.old) }
{
    let bits = fewest(number) as u32;
    let signed = is_below_zero(number);
    expr_made(
        machine,
        line,
        1,
        Expr::Const {
            value: number,
            bits,
            signed,
        },
    )
}

#[tactic(auto, unfolding(crate::specs::Exprs::shaped_constant))]
fn shaped_constant(
    machine: &mut Machine,
    alloc: Global,
    line: u32,
    number: i128,
    shape: Value,
) -> Result<Value, Refusal>
    ensures { Gives result machine.new (shaped_constant line number shape machine.old) }
{
    let shape = stated(machine, alloc, line, shape)?;
    expr_made(
        machine,
        line,
        1,
        Expr::Const {
            value: number,
            bits: kept(shape.bits),
            signed: shape.signed,
        },
    )
}

fn constant_of(
    machine: &mut Machine,
    alloc: Global,
    line: u32,
    number: i128,
    shape: Option<Value>,
) -> Result<Value, Refusal>
    ensures { Gives result machine.new (constant_of line number shape machine.old) }
{
    match shape {
        Some(shape) => shaped_constant(machine, alloc, line, number, shape),
        None => plain_constant(machine, line, number),
    }
}

/// `C(v, s)`.
#[tactic(auto, unfolding(crate::specs::Exprs::constant_called))]
pub fn constant_called(
    machine: &mut Machine,
    alloc: Global,
    line: u32,
    args: &Arguments,
) -> Result<Value, Refusal>
    ensures { Gives result machine.new (constant_called line args.now machine.old) }
{
    let (value, shape) = one_or_two(machine, alloc, line, b"v", b"s", args)?;
    let number = machine.int_of(line, value)?;
    constant_of(machine, alloc, line, number, shape)
}

/// `Cat(..)`.
#[tactic(auto, unfolding(crate::specs::Exprs::cat_called))]
pub fn cat_called(
    machine: &mut Machine,
    alloc: Global,
    line: u32,
    args: Arguments,
) -> Result<Value, Refusal>
    ensures { Gives result machine.new (cat_called line args machine.old) }
{
    let values = unnamed(machine, line, args)?;
    counts(machine, line, !values.is_empty())?;
    let ids = exprs_of(machine, alloc, line, values.as_slice())?;
    expr_made(machine, line, 1, Expr::Cat(ids))
}

/// `Replicate(a, k)`.
#[tactic(auto, unfolding(crate::specs::Exprs::replicate_called))]
pub fn replicate_called(
    machine: &mut Machine,
    alloc: Global,
    line: u32,
    args: &Arguments,
) -> Result<Value, Refusal>
    ensures { Gives result machine.new (replicate_called line args.now machine.old) }
{
    let (part, often) = two(machine, alloc, line, b"a", b"k", args)?;
    let of = expr_of(machine, line, part)?;
    let count = machine.int_of(line, often)?;
    expr_made(
        machine,
        line,
        1,
        Expr::Replicate {
            of,
            count: kept(count),
        },
    )
}

/// `Mux(c, a, b)`.
#[tactic(auto, unfolding(crate::specs::Exprs::mux_called))]
pub fn mux_called(
    machine: &mut Machine,
    alloc: Global,
    line: u32,
    args: &Arguments,
) -> Result<Value, Refusal>
    ensures { Gives result machine.new (mux_called line args.now machine.old) }
{
    let given = three(machine, alloc, line, b"c", b"a", b"b", args)?;
    let cond = expr_of(machine, line, given.first)?;
    let yes = expr_of(machine, line, given.second)?;
    let no = expr_of(machine, line, given.third)?;
    expr_made(machine, line, 1, Expr::Mux { cond, yes, no })
}

fn is_operand(value: Value) -> bool
    ensures { result ≡ is_operand value }
{
    match value {
        Value::Int(_) => true,
        Value::Expr(_) => true,
        _ => false,
    }
}

fn are_operands(values: &[Value]) -> bool
    ensures { result ≡ list_all is_operand values.now }
{
    for value in values {
        if !is_operand(*value) {
            return false;
        }
    }
    true
}

#[tactic(auto, unfolding(crate::specs::Exprs::operands_only))]
fn operands_only(machine: &Machine, line: u32, values: &[Value]) -> Result<(), Refusal>
    ensures { Gives result machine.now (operands_only line values.now machine.now) }
{
    let _machine = machine;
    if are_operands(values) {
        Ok(())
    } else {
        Err(fault(line, Kind::WrongKind))
    }
}

// An Array of the items of a list.
#[tactic(auto, unfolding(crate::specs::Exprs::array_of_list))]
fn array_of_list(
    machine: &mut Machine,
    alloc: Global,
    line: u32,
    list: Value,
) -> Result<Value, Refusal>
    ensures { Gives result machine.new (array_of_list line list machine.old) }
{
    let items = machine.list_of(alloc, line, list)?;
    counts(machine, line, !items.is_empty())?;
    operands_only(machine, line, items.as_slice())?;
    machine.array_made(line, items)
}

fn array_from(
    machine: &mut Machine,
    alloc: Global,
    line: u32,
    values: &[Value],
) -> Result<Value, Refusal>
    ensures { Gives result machine.new (array_from line values.now machine.old) }
{
    match values {
        [list] => array_of_list(machine, alloc, line, *list),
        [] => Err(fault(line, Kind::WrongCount)),
        [_, _, ..] => Err(fault(line, Kind::WrongCount)),
    }
}

/// `Array(..)`.
#[tactic(auto, unfolding(crate::specs::Exprs::array_called))]
pub fn array_called(
    machine: &mut Machine,
    alloc: Global,
    line: u32,
    args: Arguments,
) -> Result<Value, Refusal>
    ensures { Gives result machine.new (array_called line args machine.old) }
{
    let values = unnamed(machine, line, args)?;
    array_from(machine, alloc, line, values.as_slice())
}
