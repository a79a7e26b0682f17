//! Operands of FHDL, and its operators.

ghost use Rattle.std.specs.Prelude.{◌≡◌, ◌<◌, ◌^◌, IfOk, unsigned_abs};
ghost use Rattle.lx_num.specs.Fewest.{below_zero};
ghost use Rattle.lx_value.specs.Numbers.{IsInteger, ranged};
ghost use Rattle.lx_state.specs.Step.{Gives};
ghost use Rattle.lx_ops.specs.Exprs.{binary_made, constant, expr_of, expression, exprs_of, fewest, number_kind, numbered, unary_made};

use crate::signs::is_below_zero;
use lx_fhdl::{Expr, ExprId};
use lx_num::bits_for;
use lx_objects::exprs::{expr_made, put_expr};
use lx_state::work::fault;
use lx_state::{Machine, Value};
use lx_tables::Op;
use lx_text::{Kind, List, Refusal};
use lx_value::NumFault;
use std::alloc::Global;

// The kind of a number's fault.
fn number_kind(fault: NumFault) -> Kind
    ensures { result ≡ number_kind fault }
{
    match fault {
        NumFault::DivZero => Kind::DivZero,
        NumFault::NumberRange => Kind::NumberRange,
    }
}

/// The number, where it lies in the range of integers.
pub fn in_range(number: i128) -> Result<i128, NumFault>
    ensures value { result ≡ ranged number }
    ensures range { IfOk result (λ z. IsInteger z) }
{
    if number.unsigned_abs() < 1 << 127 {
        Ok(number)
    } else {
        Err(NumFault::NumberRange)
    }
}

/// The number, or the fault that it has.
pub fn numbered(
    machine: &Machine,
    line: u32,
    number: Result<i128, NumFault>,
) -> Result<i128, Refusal>
    ensures { Gives result machine.now (numbered line number machine.now) }
{
    let _machine = machine;
    match number {
        Ok(number) => Ok(number),
        Err(wrong) => Err(fault(line, number_kind(wrong))),
    }
}

/// The fewest bits, at least 1, that hold a number: signed where it is below 0.
#[tactic(auto, using(crate::proofs::Fewest::fewest_is, crate::proofs::Fewest::least_integer))]
pub fn fewest(number: i128) -> u8
    ensures { result ≡ fewest number }
{
    if number.unsigned_abs() < 1 << 127 {
        bits_for(number)
    } else {
        128
    }
}

/// Makes an integer an expression, of its fewest bits.
#[tactic(auto, unfolding(crate::specs::Exprs::constant))]
pub fn constant(machine: &mut Machine, line: u32, number: i128) -> Result<ExprId, Refusal>
    ensures { Gives result machine.new (constant line number machine.old) }
{
    put_expr(
        machine,
        line,
        Expr::Const {
            value: number,
            bits: fewest(number) as u32,
            signed: is_below_zero(number),
        },
    )
}

/// An operand of FHDL: an expression, or an integer, which becomes one.
#[tactic(auto, unfolding(crate::specs::Exprs::expr_of))]
pub fn expr_of(machine: &mut Machine, line: u32, value: Value) -> Result<ExprId, Refusal>
    ensures { Gives result machine.new (expr_of line value machine.old) }
{
    match value {
        Value::Expr(id) => Ok(id),
        Value::Int(number) => constant(machine, line, number),
        _ => Err(fault(line, Kind::WrongKind)),
    }
}

/// Operands of FHDL, in their order.
#[tactic(auto, unfolding(crate::specs::Exprs::exprs_of))]
pub fn exprs_of(
    machine: &mut Machine,
    alloc: Global,
    line: u32,
    values: &[Value],
) -> Result<List<ExprId>, Refusal>
    ensures { Gives result machine.new (exprs_of line values.now machine.old) }
{
    let mut ids = List::new(alloc);
    for value in values {
        let id = expr_of(machine, line, *value)?;
        if ids.push(id).is_err() {
            return Err(Refusal::NoMemory);
        }
    }
    Ok(ids)
}

/// The expression that a value is.
pub fn expression(value: Value) -> Option<ExprId>
    ensures { result ≡ expression value }
{
    match value {
        Value::Expr(id) => Some(id),
        _ => None,
    }
}

/// Makes an operator with one operand.
#[tactic(auto, unfolding(crate::specs::Exprs::unary_made))]
pub fn unary_made(machine: &mut Machine, line: u32, op: Op, of: ExprId) -> Result<Value, Refusal>
    ensures { Gives result machine.new (unary_made line op of machine.old) }
{
    expr_made(machine, line, 1, Expr::Unary { op, of })
}

/// Makes an operator with two operands.
#[tactic(auto, unfolding(crate::specs::Exprs::binary_made))]
pub fn binary_made(
    machine: &mut Machine,
    line: u32,
    op: Op,
    first: Value,
    second: Value,
) -> Result<Value, Refusal>
    ensures { Gives result machine.new (binary_made line op first second machine.old) }
{
    let left = expr_of(machine, line, first)?;
    let right = expr_of(machine, line, second)?;
    expr_made(machine, line, 1, Expr::Binary { op, left, right })
}
