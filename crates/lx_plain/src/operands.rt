//! Expressions of a draft with their shapes, and what is asked of them.

ghost use Rattle.std.specs.Prelude.{◌≡◌, ◌<◌, length};

use lx_fhdl::ExprId;
use lx_num::Shape;

/// An expression and its shape.
#[derive(Clone, Copy)]
pub struct Operand {
    pub id: ExprId,
    pub shape: Shape,
}

/// What a condition asks of a number.
#[derive(Clone, Copy)]
pub enum Test {
    /// It is not 0.
    Holds,
    /// It is 0.
    Fails,
    /// It is the number of an item, which it never is where that number has more bits.
    Item(usize),
    /// It is the number of the last item or more, which it never is where that number has more bits.
    Last(usize),
    /// It is a key, cut to its own shape.
    Key(i128),
    /// It is not that key.
    NoKey(i128),
}
