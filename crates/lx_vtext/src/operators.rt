//! The operators of the Verilog profile (IEEE 1364-2005, "Operators").

/// A unary operator: `-` and `~`.
#[derive(Clone, Copy, PartialEq, Eq)]
pub enum UnOp {
    Negate,
    Invert,
}

/// A binary operator: `+ - * << <<< >> >>> & | ^ < <= == != > >=`.
#[derive(Clone, Copy, PartialEq, Eq)]
pub enum BinOp {
    Add,
    Sub,
    Mul,
    ShiftLeft,
    ArithmeticLeft,
    ShiftRight,
    ArithmeticRight,
    And,
    Or,
    Xor,
    Less,
    LessEqual,
    Equal,
    NotEqual,
    Greater,
    GreaterEqual,
}
