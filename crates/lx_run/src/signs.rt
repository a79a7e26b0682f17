//! Signs and `not` before operands, powers, and operators.

ghost use Rattle.std.specs.Prelude.{◌≡◌, ◌++◌, IfOk, map};
ghost use Rattle.lx_syntax.specs.Convert.{token_line};
ghost use Rattle.lx_state.specs.Step.{Gives};
ghost use Rattle.lx_run.specs.Signs.{all_applied, applied, comparison_of, python_op, sign_of};
ghost use Rattle.lx_run.specs.declared.signs.Pending.TheVariants as wait;

use lx_ops::{Comparison, Sign, binary, negated, prefixed};
use lx_state::machine::Machine;
use lx_state::values::Value;
use lx_syntax::{Operator, Prefix, Signed};
use lx_text::{List, NoMemory, Refusal};
use lx_token::Token;
use lx_value::PyOp;
use std::alloc::Global;

/// Python's operator.
#[tactic(auto, unfolding(crate::specs::Signs::python_op))]
pub fn python_op(operator: Operator) -> PyOp
    ensures { result ≡ python_op operator }
{
    match operator {
        Operator::Add => PyOp::Add,
        Operator::Sub => PyOp::Sub,
        Operator::Mul => PyOp::Mul,
        Operator::Floor => PyOp::FloorDiv,
        Operator::Remainder => PyOp::Mod,
        Operator::ShiftLeft => PyOp::Shl,
        Operator::ShiftRight => PyOp::Shr,
        Operator::And => PyOp::And,
        Operator::Or => PyOp::Or,
        Operator::Xor => PyOp::Xor,
    }
}

/// How a comparison of the text compares.
#[tactic(auto, unfolding(crate::specs::Signs::comparison_of))]
pub fn comparison_of(by: lx_syntax::Comparison) -> Comparison
    ensures { result ≡ comparison_of by }
{
    match by {
        lx_syntax::Comparison::Equal => Comparison::Equal,
        lx_syntax::Comparison::Unequal => Comparison::Unequal,
        lx_syntax::Comparison::Less => Comparison::Less,
        lx_syntax::Comparison::LessEqual => Comparison::LessEqual,
        lx_syntax::Comparison::Greater => Comparison::Greater,
        lx_syntax::Comparison::GreaterEqual => Comparison::GreaterEqual,
        lx_syntax::Comparison::In => Comparison::In,
    }
}

/// The sign that a prefix of the text is.
#[tactic(auto, unfolding(crate::specs::Signs::sign_of))]
pub fn sign_of(prefix: Prefix) -> Sign
    ensures { result ≡ sign_of prefix }
{
    match prefix {
        Prefix::Minus => Sign::Minus,
        Prefix::Plus => Sign::Plus,
        Prefix::Tilde => Sign::Tilde,
    }
}

/// What waits for its operand.
#[derive(Clone, Copy)]
pub enum Pending {
    /// `not` on this line.
    Not(u32),
    Sign(Signed),
    /// A power on this line, whose base was run.
    Power(u32, Value),
}

/// What waits, and each `not` behind it.
pub(crate) fn with_nots(waiting: List<Pending>, words: &[Token]) -> Result<List<Pending>, NoMemory>
    ensures { IfOk result (λ pending. pending ≡ waiting ++ map (λ x. wait.Not (token_line x)) words.now) }
{
    let mut pending = waiting;
    for word in words {
        pending.push(Pending::Not(word.line))?;
    }
    Ok(pending)
}

/// What waits, and signs behind it.
pub(crate) fn with_signs(
    waiting: List<Pending>,
    signs: &[Signed],
) -> Result<List<Pending>, NoMemory>
    ensures { IfOk result (λ pending. pending ≡ waiting ++ map wait.Sign signs.now) }
{
    let mut pending = waiting;
    for sign in signs {
        pending.push(Pending::Sign(*sign))?;
    }
    Ok(pending)
}

// What waited, with its operand.
fn applied(
    machine: &mut Machine,
    alloc: Global,
    pending: Pending,
    value: Value,
) -> Result<Value, Refusal>
    ensures { Gives result machine.new (applied pending value machine.old) }
{
    match pending {
        Pending::Not(line) => negated(machine, line, value),
        Pending::Sign(sign) => prefixed(machine, sign.line, sign_of(sign.prefix), value),
        Pending::Power(line, base) => binary(machine, alloc, line, PyOp::Pow, base, value),
    }
}

/// All that waited, the last one first.
#[tactic(auto, using(crate::proofs::Applied::applied_last), unfolding(crate::specs::Signs::all_applied))]
pub(crate) fn all_applied(
    machine: &mut Machine,
    alloc: Global,
    pending: List<Pending>,
    value: Value,
) -> Result<Value, Refusal>
    ensures { Gives result machine.new (all_applied pending value machine.old) }
{
    let mut rest = pending;
    let mut made = value;
    'pending: while let Some(last) = rest.pop() {
        made = applied(machine, alloc, last, made)?;
    }
    Ok(made)
}
