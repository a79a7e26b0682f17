//! The shape of an expression, from the shapes of its operands, or its fault.
#![tactic(auto)]

ghost use Rattle.std.specs.Prelude.{◌≡◌, ℕ, Bool, true, ◌+◌, ◌-◌, ◌*◌, ◌^◌, ◌<◌, ◌≤◌, ◌||◌, length, min, IsTrue, Option, Some, None};
ghost use Rattle.lx_num.specs.Ints.{shape, unsigned};
ghost use Rattle.lx_circuit.specs.Shapes.{binary_fault, binary_shape, bits_sum, constant_fault, joined, joined_bits, or_else, pick_fault, pick_shape, replicate_fault, slice_fault, some_signed, too_wide, unary_shape, widest};
ghost use Rattle.lx_fhdl.specs.Below.{all_below, expr_below};
ghost use Rattle.lx_fhdl.specs.Nodes.{HasParts, shape_at, shapes_at};
ghost use Rattle.lx_width.specs.Width.{NamesBelow, node_result, shaped, signal_shape};
ghost use Rattle.lx_width.specs.Worked.{AreWorked};

mod shapes;

use lx_circuit::WidthFault;
use lx_fhdl::{Expr, ExprId, SigId, Signal};
use lx_num::Shape;
use lx_tables::Op;
pub use shapes::expr_shapes;

/// A width before it is known to be one of at most 127 bits.
#[derive(Clone, Copy)]
struct Wide {
    bits: u64,
    signed: bool,
}

/// The fault of a width above 127; it shows at most 4,294,967,295.
fn too_wide(bits: u64) -> WidthFault
    requires { 127 < bits }
    ensures { too_wide bits ≡ Some result }
{
    let shown = if bits < 4294967295 {
        bits as u32
    } else {
        4294967295
    };
    WidthFault::TooWide(shown)
}

/// The shape of so many bits, at most 127.
fn checked(bits: u64, signed: bool) -> Result<Shape, WidthFault>
    ensures { result ≡ shaped (too_wide bits) (shape bits signed) }
{
    if bits > 127 {
        return Err(too_wide(bits));
    }
    Ok(Shape {
        bits: bits as u8,
        signed,
    })
}

/// The shape of so many bits of an operator whose operands, joined, have `joined` bits.
fn checked_after(joined: u64, bits: u64, signed: bool) -> Result<Shape, WidthFault>
    ensures { result ≡ shaped (or_else (too_wide joined) (too_wide bits)) (shape bits signed) }
{
    if joined > 127 {
        return Err(too_wide(joined));
    }
    checked(bits, signed)
}

/// The bits of an operand that is joined with others, of which some are signed.
fn bits_joined(some_signed: bool, a: Shape) -> u64
    ensures value { result ≡ joined_bits some_signed a }
    ensures bound { result ≤ 256 }
{
    if some_signed && !a.signed {
        a.bits as u64 + 1
    } else {
        a.bits as u64
    }
}

/// Two operands joined.
fn join(a: Shape, b: Shape) -> Wide
    ensures bits { result.bits ≡ (joined a b).bits }
    ensures signed { result.signed ≡ (joined a b).signed }
    ensures bound { result.bits ≤ 256 }
{
    let signed = a.signed || b.signed;
    let bits = bits_joined(signed, a).max(bits_joined(signed, b));
    Wide { bits, signed }
}

/// The bits of a left shift, as far as they are shown.
fn shifted(a: Shape, b: Shape) -> u64
    ensures { result ≡ min (a.bits + 2 ^ b.bits - 1) 4294967295 }
{
    if b.bits < 32 {
        (a.bits as u64 + (1 << b.bits) - 1).min(4294967295)
    } else {
        4294967295
    }
}

/// The shape of an operator of one operand.
fn unary(op: Op, a: Shape) -> Result<Shape, WidthFault>
    ensures { result ≡ shaped (too_wide (unary_shape op a).bits) (unary_shape op a) }
{
    match op {
        Op::Neg => checked(a.bits as u64 + 1, true),
        _ => checked(a.bits as u64, a.signed),
    }
}

/// The shape of a left shift.
fn left_shift(a: Shape, b: Shape) -> Result<Shape, WidthFault>
    ensures { result ≡ shaped (binary_fault Op.Shl a b) (binary_shape Op.Shl a b) }
{
    if b.signed {
        return Err(WidthFault::SignedShift);
    }
    checked(shifted(a, b), a.signed)
}

/// The shape of an operator of two operands.
fn binary(op: Op, a: Shape, b: Shape) -> Result<Shape, WidthFault>
    ensures { result ≡ shaped (binary_fault op a b) (binary_shape op a b) }
{
    let both = join(a, b);
    match op {
        Op::Add => checked_after(both.bits, both.bits + 1, both.signed),
        Op::Sub => checked_after(both.bits, both.bits + 1, true),
        Op::Mul => {
            let bits = bits_joined(both.signed, a) + bits_joined(both.signed, b);
            checked_after(both.bits, bits, both.signed)
        }
        Op::Shl => left_shift(a, b),
        Op::Shr if b.signed => Err(WidthFault::SignedShift),
        Op::Shr => Ok(a),
        Op::And | Op::Or | Op::Xor => checked_after(both.bits, both.bits, both.signed),
        _ => checked_after(both.bits, 1, false),
    }
}

/// A stated shape.
fn constant(bits: u32, signed: bool) -> Result<Shape, WidthFault>
    ensures { result ≡ shaped (constant_fault (shape bits signed)) (shape bits signed) }
{
    if bits == 0 {
        return Err(WidthFault::BadWidth);
    }
    checked(bits as u64, signed)
}

/// The shape of copies.
fn replicate(a: Shape, count: u32) -> Result<Shape, WidthFault>
    ensures { result ≡ shaped (replicate_fault a count) (unsigned (count * a.bits)) }
{
    if count == 0 {
        return Err(WidthFault::BadWidth);
    }
    checked(count as u64 * a.bits as u64, false)
}

/// The shape of bits low to high - 1.
fn slice(a: Shape, low: u32, high: u32) -> Result<Shape, WidthFault>
    ensures { result ≡ shaped (slice_fault a low high) (unsigned (high - low)) }
{
    if low < high && high <= a.bits as u32 {
        Ok(Shape {
            bits: (high - low) as u8,
            signed: false,
        })
    } else {
        Err(WidthFault::BadSlice)
    }
}

/// The shape of a node.
fn shape_of(shapes: &[Shape], id: ExprId) -> Shape
    requires { id.place < length shapes.now }
    ensures { result ≡ shape_at shapes.now id.place }
{
    shapes[id.place]
}

/// The shape of a signal.
fn shape_of_signal(signals: &[Signal], x: SigId) -> Shape
    requires { x.0 < length signals.now }
    ensures { result ≡ signal_shape signals.now x.0 }
{
    signals[x.0].shape
}

/// Whether some part is signed.
fn is_some_signed(parts: &[ExprId], shapes: &[Shape]) -> bool
    requires { IsTrue (all_below (length shapes.now) parts.now) }
    ensures { result ≡ some_signed (shapes_at shapes.now parts.now) }
{
    for part in parts {
        if shape_of(shapes, *part).signed {
            return true;
        }
    }
    false
}

/// The bits of all parts together.
fn sum_of_bits(parts: &[ExprId], shapes: &[Shape]) -> u128
    requires { IsTrue (all_below (length shapes.now) parts.now) }
    ensures { result ≡ bits_sum (shapes_at shapes.now parts.now) }
{
    let mut bits = 0;
    for part in parts {
        bits += shape_of(shapes, *part).bits as u128;
    }
    bits
}

/// The bits of the widest of some items, joined.
fn widest_of(some_signed: bool, items: &[ExprId], shapes: &[Shape]) -> u64
    requires { IsTrue (all_below (length shapes.now) items.now) }
    ensures value { result ≡ widest some_signed (shapes_at shapes.now items.now) }
{
    let mut bits = 0;
    for item in items {
        bits = bits_joined(some_signed, shape_of(shapes, *item)).max(bits);
    }
    bits
}

/// The shape of parts side by side.
fn cat(parts: &[ExprId], shapes: &[Shape]) -> Result<Shape, WidthFault>
    requires { IsTrue (all_below (length shapes.now) parts.now) }
    ensures { result ≡ shaped (too_wide (bits_sum (shapes_at shapes.now parts.now))) (unsigned (bits_sum (shapes_at shapes.now parts.now))) }
{
    checked(sum_of_bits(parts, shapes).min(4294967295) as u64, false)
}

/// The shape of an item chosen by an index.
fn pick(items: &[ExprId], index: Shape, shapes: &[Shape]) -> Result<Shape, WidthFault>
    requires { IsTrue (all_below (length shapes.now) items.now) }
    ensures { result ≡ shaped (pick_fault (shapes_at shapes.now items.now) index) (pick_shape (shapes_at shapes.now items.now)) }
{
    if index.signed {
        return Err(WidthFault::SignedShift);
    }
    let signed = is_some_signed(items, shapes);
    checked(widest_of(signed, items, shapes), signed)
}

/// The shape of a node whose operands have these shapes, or its fault, in this order: a signed amount or index, a joined
/// width above 127, a resulting one. No operand has a fault.
pub fn node_shape(node: &Expr, shapes: &[Shape], signals: &[Signal]) -> Result<Shape, WidthFault>
    requires children { IsTrue (expr_below node.now (length shapes.now)) }
    requires signal { NamesBelow (length signals.now) node.now }
    requires parts { HasParts node.now }
    ensures { result ≡ node_result signals.now shapes.now node.now }
{
    match node {
        Expr::Const { bits, signed, .. } => constant(*bits, *signed),
        Expr::Sig(x) => Ok(shape_of_signal(signals, *x)),
        Expr::Unary { op, of } => unary(*op, shape_of(shapes, *of)),
        Expr::Binary { op, left, right } => {
            binary(*op, shape_of(shapes, *left), shape_of(shapes, *right))
        }
        Expr::Mux { yes, no, .. } => {
            let both = join(shape_of(shapes, *yes), shape_of(shapes, *no));
            checked(both.bits, both.signed)
        }
        Expr::Cat(parts) => cat(parts.as_slice(), shapes),
        Expr::Pick { items, index } => pick(items.as_slice(), shape_of(shapes, *index), shapes),
        Expr::Replicate { of, count } => replicate(shape_of(shapes, *of), *count),
        Expr::Slice { of, low, high } => slice(shape_of(shapes, *of), *low, *high),
        Expr::Fetch { width, .. } => constant(*width as u32, false),
    }
}

/// Shapes and faults of operators, worked by hand.
pub fn widths_are_worked()
    ensures { AreWorked }
{}
