//! The values of expressions, as whole numbers.

ghost use Rattle.std.specs.Prelude.{◌≡◌, ℕ, ◌<◌, ◌≤◌, ◌+◌, ◌-◌, ◌*◌, ◌^◌, pos, min, length, slice_get, Some, None, IsTrue};
ghost use Rattle.lx_num.specs.Ints.{Fits, field_of, modulo, shape, wrapped};
ghost use Rattle.lx_circuit.specs.Shapes.{unary_shape, binary_fault, bits_sum, constant_fault, slice_fault};
ghost use Rattle.lx_circuit.specs.Values.{unary_value, binary_value, mux_value, cat_pattern, count_of, replicate_value, pick_value, flag};
ghost use Rattle.lx_fhdl.specs.declared.exprs.Expr.{Expr};
ghost use Rattle.lx_fhdl.specs.Nodes.{EachChild, EachPlace, IsFit, IsKnown, IsNode, IsShaped, IsSmall, IsValued, listed, node_value, shape_at, shapes_at, value_at, values_at};

use crate::exprs::{Expr, ExprId, Exprs, SigId};
use crate::steps::Steps;
use lx_arena::Id;
use lx_num::{Shape, field, wrap};
use lx_tables::Op;
use std::marker::PhantomData;
use std::sync::ledger::Ledger;

/// The shape of a node.
pub(crate) fn shape_of(shapes: &[Shape], id: ExprId) -> Shape
    requires { id.place < length shapes.now }
    ensures { result ≡ shape_at shapes.now id.place }
{
    shapes[id.place]
}

/// The value of a node.
pub(crate) fn value_of(known: &[i128], id: ExprId) -> i128
    requires { id.place < length known.now }
    ensures { result ≡ value_at known.now id.place }
{
    known[id.place]
}

/// 2 to the power n, less 1.
fn ones(n: u8) -> i128
    requires { n ≤ 127 }
    ensures { result ≡ pos (2 ^ n - 1) }
{
    ((1u128 << n) - 1) as i128
}

/// 1 or 0.
fn truth(holds: bool) -> i128
    ensures { result ≡ flag holds }
{
    if holds { 1 } else { 0 }
}

/// The value of an operator of one operand.
pub(crate) fn unary(op: Op, a: Shape, x: i128) -> i128
    requires small { IsSmall a }
    requires sound { (unary_shape op a).bits ≤ 127 }
    requires fits { Fits a x }
    ensures { result ≡ unary_value op a x }
{
    match op {
        Op::Neg => -x,
        Op::Not if a.signed => !x,
        Op::Not => ones(a.bits) - x,
        _ => x,
    }
}

/// An amount of bits, as far as it makes a difference to a number of 127 bits.
fn amount(y: i128) -> u32
    ensures { result ≡ min (count_of y) 127 }
{
    if y < 0 {
        0
    } else if y < 127 {
        y as u32
    } else {
        127
    }
}

/// The value of an operator of two operands.
pub(crate) fn binary(op: Op, a: Shape, b: Shape, x: i128, y: i128) -> i128
    requires left_small { IsSmall a }
    requires right_small { IsSmall b }
    requires sound { binary_fault op a b ≡ None }
    requires left { Fits a x }
    requires right { Fits b y }
    ensures { result ≡ binary_value op x y }
{
    match op {
        Op::Add => x + y,
        Op::Sub => x - y,
        Op::Mul => x * y,
        Op::Shl => x * (1 << amount(y)),
        Op::Shr => x >> amount(y),
        Op::And => x & y,
        Op::Or => x | y,
        Op::Xor => x ^ y,
        Op::Eq => truth(x == y),
        Op::Ne => truth(x != y),
        Op::Lt => truth(x < y),
        Op::Le => truth(x <= y),
        Op::Gt => truth(x > y),
        Op::Ge => truth(x >= y),
        _ => 0,
    }
}

/// The lowest bits of a number, as a pattern.
fn low_bits(x: i128, bits: u8) -> u128
    requires some { 1 ≤ bits }
    requires most { bits ≤ 127 }
    ensures value { result ≡ modulo x (2 ^ bits) }
    ensures below { result < 2 ^ bits }
{
    field(x, 0, bits) as u128
}

/// A pattern with another above it.
fn beside(pattern: u128, low: u8, above: u128, bits: u8) -> u128
    requires pattern { pattern < 2 ^ low }
    requires above { above < 2 ^ bits }
    requires narrow { low + bits ≤ 127 }
    ensures value { result ≡ pattern + 2 ^ low * above }
    ensures below { result < 2 ^ (low + bits) }
{
    pattern + (1 << low) * above
}

/// The unsigned number that a pattern of at most 127 bits stands for.
fn number(pattern: u128) -> i128
    requires { pattern < 2 ^ 127 }
    ensures { result ≡ pos pattern }
{
    pattern as i128
}

/// The values of parts side by side, the first in the lowest bits.
pub(crate) fn cat(parts: &[ExprId], shapes: &[Shape], known: &[i128]) -> i128
    requires known { EachPlace (IsKnown shapes.now known.now) parts.now }
    requires narrow { bits_sum (shapes_at shapes.now parts.now) ≤ 127 }
    ensures { result ≡ pos (cat_pattern (shapes_at shapes.now parts.now) (values_at known.now parts.now)) }
{
    let mut pattern = 0;
    let mut low = 0;
    for part in parts {
        let bits = shape_of(shapes, *part).bits;
        let own = low_bits(value_of(known, *part), bits);
        pattern = beside(pattern, low, own, bits);
        low += bits;
    }
    number(pattern)
}

/// Copies of a number's bits side by side.
pub(crate) fn replicate(a: Shape, count: u32, x: i128) -> i128
    requires small { IsSmall a }
    requires narrow { count * a.bits ≤ 127 }
    ensures { result ≡ replicate_value a count x }
{
    let copy = low_bits(x, a.bits);
    let mut pattern = 0;
    let mut width = 0;
    for made in 0..count {
        pattern = beside(copy, a.bits, pattern, width);
        width += a.bits;
    }
    number(pattern)
}

/// The place of an index among items, the last one past the end.
fn place_of(index: i128, last: usize) -> usize
    ensures { result ≡ min (count_of index) last }
{
    if index < 0 {
        0
    } else if index < last as i128 {
        index as usize
    } else {
        last
    }
}

/// The value of the item at an index, the last one past the end.
pub(crate) fn pick(items: &[ExprId], known: &[i128], index: i128) -> i128
    requires some { 0 < length items.now }
    requires within { EachPlace (λ k. k < length known.now) items.now }
    ensures { result ≡ pick_value (values_at known.now items.now) index }
{
    let place = place_of(index, items.len() - 1);
    value_of(known, items[place])
}

/// The value of a constant.
fn constant(value: i128, bits: u32, signed: bool) -> i128
    requires { constant_fault (shape bits signed) ≡ None }
    ensures { result ≡ wrapped (shape bits signed) value }
{
    let bits = bits as u8;
    wrap(value, Shape { bits, signed })
}

/// Bits low to high - 1 of a number.
fn slice(a: Shape, low: u32, high: u32, x: i128) -> i128
    requires small { IsSmall a }
    requires sound { slice_fault a low high ≡ None }
    ensures { result ≡ pos (field_of x low (high - low)) }
{
    field(x, low as u8, (high - low) as u8)
}

/// The first number where the condition is not 0, else the second.
fn choose(condition: i128, yes: i128, no: i128) -> i128
    ensures { result ≡ mux_value condition yes no }
{
    if condition == 0 { no } else { yes }
}

/// The value of a signal.
fn signal_of(vals: &[i128], x: SigId) -> i128
    requires { x.0 < length vals.now }
    ensures { result ≡ value_at vals.now x.0 }
{
    vals[x.0]
}

/// The value of one expression, whose children's values are known.
fn value(exprs: &Exprs, shapes: &[Shape], id: ExprId, vals: &[i128], known: &[i128]) -> i128
    requires place { id.place < length exprs.now }
    requires node { (x : Expr) → slice_get exprs.now id.place ≡ Some x → IsNode shapes.now vals.now id.place x }
    requires children { (x : Expr) → slice_get exprs.now id.place ≡ Some x → EachChild (IsKnown shapes.now known.now) x }
    ensures { (x : Expr) → slice_get exprs.now id.place ≡ Some x → result ≡ node_value shapes.now (listed vals.now) known.now x }
{
    match exprs.get(id) {
        Expr::Const {
            value,
            bits,
            signed,
        } => constant(*value, *bits, *signed),
        Expr::Sig(x) => signal_of(vals, *x),
        Expr::Unary { op, of } => unary(*op, shape_of(shapes, *of), value_of(known, *of)),
        Expr::Binary { op, left, right } => binary(
            *op,
            shape_of(shapes, *left),
            shape_of(shapes, *right),
            value_of(known, *left),
            value_of(known, *right),
        ),
        Expr::Mux { cond, yes, no } => choose(
            value_of(known, *cond),
            value_of(known, *yes),
            value_of(known, *no),
        ),
        Expr::Cat(parts) => cat(parts.as_slice(), shapes, known),
        Expr::Pick { items, index } => pick(items.as_slice(), known, value_of(known, *index)),
        Expr::Replicate { of, count } => {
            replicate(shape_of(shapes, *of), *count, value_of(known, *of))
        }
        Expr::Slice { of, low, high } => {
            slice(shape_of(shapes, *of), *low, *high, value_of(known, *of))
        }
        Expr::Fetch { .. } => unreachable!(),
    }
}

/// The value of one expression, from the values of its children.
///
/// `shapes` has the shape of every expression, from its children's; one that names a signal may have any shape of 1 to
/// 64 bits, of which `vals` has a value. No expression reads a memory. `known` has the values of the expression's children. It counts one step.
pub fn eval_node<L: Ledger>(
    exprs: &Exprs,
    shapes: &[Shape],
    id: ExprId,
    vals: &[i128],
    known: &[i128],
    steps: &mut Steps<L>,
) -> i128
    requires place { id.place < length exprs.now }
    requires shaped { IsShaped exprs.now shapes.now vals.now }
    requires long { length known.now ≡ length exprs.now }
    requires children { (x : Expr) → slice_get exprs.now id.place ≡ Some x → EachChild (IsFit shapes.now known.now) x }
    ensures value { (x : Expr) → slice_get exprs.now id.place ≡ Some x → result ≡ node_value shapes.now (listed vals.now) known.now x }
    ensures fits { Fits (shape_at shapes.now id.place) result }
    ensures cost { steps.new ≡ steps.old + 1 }
{
    steps.tick();
    exprs.lower();
    value(exprs, shapes, id, vals, known)
}

/// The values of all expressions, from the lowest on. It counts a step for each.
pub fn eval_into<L: Ledger>(
    exprs: &Exprs,
    shapes: &[Shape],
    vals: &[i128],
    into: &mut [i128],
    steps: &mut Steps<L>,
)
    requires shaped { IsShaped exprs.now shapes.now vals.now }
    requires long { length into.old ≡ length exprs.now }
    ensures values { (k : ℕ) → k < length exprs.now → IsValued exprs.now shapes.now vals.now into.new k }
    ensures fits { (k : ℕ) → k < length exprs.now → IsFit shapes.now into.new k }
    ensures cost { steps.new ≡ steps.old + length exprs.now }
{
    exprs.lower();
    for place in 0..exprs.len() {
        let id = Id {
            place,
            of: PhantomData,
        };
        into[place] = eval_node(exprs, shapes, id, vals, into, steps);
    }
}
