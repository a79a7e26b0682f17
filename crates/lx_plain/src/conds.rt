//! Conditions and shifted numbers that lowered statements need: each is one expression over those that stand already.

ghost use Rattle.std.specs.Prelude.{◌≡◌, ◌^◌, nat_lt, IfOk};
ghost use Rattle.lx_circuit.specs.Terms.{Binary, Constant};
ghost use Rattle.lx_fhdl.specs.Designs.{shapes, term};
ghost use Rattle.lx_fhdl.specs.Nodes.{IsSmall};
ghost use Rattle.lx_lowering.specs.Flat.{without_low};
ghost use Rattle.lx_lowering.specs.Terms.{never};
ghost use Rattle.lx_plain.specs.Operands.{CanJoin, HasShape};
ghost use Rattle.lx_plain.specs.Plain.{TermPut};
ghost use Rattle.lx_plain.specs.Tests.{asked, compared};

use crate::operands::{Operand, Test};
use crate::plain::PlainDraft;
use lx_fhdl::{Expr, ExprId};
use lx_num::Shape;
use lx_tables::Op;
use lx_text::NoMemory;

/// Adds a number of a shape.
#[tactic(auto, using(crate::proofs::Conditions::term_put))]
pub fn push_constant(draft: &mut PlainDraft, value: i128, shape: Shape) -> Result<ExprId, NoMemory>
    requires { IsSmall shape }
    ensures { IfOk result (λ id. TermPut draft.old draft.new id.place (Constant value shape)) }
{
    let node = Expr::Const {
        value,
        bits: shape.bits as u32,
        signed: shape.signed,
    };
    let id = draft.push_expr(node)?;
    Ok(id)
}

/// Adds an operator of two expressions.
#[tactic(auto, using(crate::proofs::Conditions::binary_added, crate::proofs::Conditions::term_put))]
pub fn push_binary(
    draft: &mut PlainDraft,
    op: Op,
    left: ExprId,
    right: ExprId,
) -> Result<ExprId, NoMemory>
    requires { CanJoin draft.old op left right }
    ensures { IfOk result (λ id. TermPut draft.old draft.new id.place (Binary op (term draft.old left.place) (term draft.old right.place))) }
{
    draft.keeps();
    let id = draft.push_expr(Expr::Binary { op, left, right })?;
    Ok(id)
}

/// Whether a number is less than 2 to the bits.
#[tactic(auto, using(crate::proofs::Conditions::below_far, crate::proofs::Conditions::below_near))]
fn is_below(number: usize, bits: u8) -> bool
    ensures { result ≡ nat_lt number (2 ^ bits) }
{
    if bits < 64 { number < 1 << bits } else { true }
}

/// Adds the condition that never holds.
pub fn push_never(draft: &mut PlainDraft) -> Result<ExprId, NoMemory>
    ensures { IfOk result (λ id. TermPut draft.old draft.new id.place never) }
{
    let bit = Shape {
        bits: 1,
        signed: false,
    };
    push_constant(draft, 0, bit)
}

/// The operator and the number that a test compares a number of so many bits with, where the test can hold.
fn comparison(test: Test, bits: u8) -> Option<(Op, i128)>
    ensures { result ≡ compared bits test }
{
    match test {
        Test::Holds => Some((Op::Ne, 0)),
        Test::Fails => Some((Op::Eq, 0)),
        Test::Item(item) => {
            if is_below(item, bits) {
                Some((Op::Eq, item as i128))
            } else {
                None
            }
        }
        Test::Last(item) => {
            if is_below(item, bits) {
                Some((Op::Ge, item as i128))
            } else {
                None
            }
        }
        Test::Key(key) => Some((Op::Eq, key)),
        Test::NoKey(key) => Some((Op::Ne, key)),
    }
}

/// Adds the condition that a test asks of an expression.
pub fn push_test(draft: &mut PlainDraft, of: Operand, test: Test) -> Result<ExprId, NoMemory>
    requires { HasShape draft.old of }
    ensures { IfOk result (λ id. TermPut draft.old draft.new id.place (asked (shapes draft.old) (term draft.old of.id.place) test)) }
{
    match comparison(test, of.shape.bits) {
        Some((op, value)) => {
            draft.keeps();
            let number = push_constant(draft, value, of.shape)?;
            let id = push_binary(draft, op, of.id, number)?;
            Ok(id)
        }
        None => push_never(draft),
    }
}

/// Adds a number without its lowest bits, so many of them.
pub fn push_without_low(draft: &mut PlainDraft, of: Operand, low: u8) -> Result<ExprId, NoMemory>
    requires { HasShape draft.old of }
    ensures { IfOk result (λ id. TermPut draft.old draft.new id.place (without_low (shapes draft.old) low (term draft.old of.id.place))) }
{
    let seven = Shape {
        bits: 7,
        signed: false,
    };
    draft.keeps();
    let amount = push_constant(draft, low.min(of.shape.bits) as i128, seven)?;
    let id = push_binary(draft, Op::Shr, of.id, amount)?;
    Ok(id)
}
