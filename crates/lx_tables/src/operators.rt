//! The operators of FHDL, and how each is written in Verilog at each pair of operands' signs.

ghost use Rattle.std.specs.Prelude.{◌≡◌};
ghost use Rattle.lx_tables.specs.Operators.{row_of};

/// An operator of FHDL ("Operators" of the FHDL description).
#[derive(Clone, Copy, PartialEq, Eq)]
pub enum Op {
    Neg,
    Not,
    Add,
    Sub,
    Mul,
    Shl,
    Shr,
    And,
    Or,
    Xor,
    Eq,
    Ne,
    Lt,
    Le,
    Gt,
    Ge,
    Mux,
    Cat,
    Replicate,
}

/// The signs of a left and a right operand: unsigned or signed.
#[derive(Clone, Copy, PartialEq, Eq)]
pub enum Mix {
    UU,
    US,
    SU,
    SS,
}

/// The form of an expression of Verilog (IEEE 1364-2005, "Expressions") that an operator is written in.
#[derive(Clone, Copy, PartialEq, Eq)]
pub enum OpText {
    /// `(-a)`
    Negated,
    /// `(~a)`
    Inverted,
    /// `(a + b)`
    Plus,
    /// `(a - b)`
    Minus,
    /// `(a * b)`
    Times,
    /// `(a << b)`
    ShiftLeft,
    /// `(a >> b)`, which fills with zeros
    ShiftRight,
    /// `(a >>> b)`, which fills with the top bit of a signed a
    ShiftRightSigned,
    /// `(a & b)`
    BitAnd,
    /// `(a | b)`
    BitOr,
    /// `(a ^ b)`
    BitXor,
    /// `(a == b)`
    Equal,
    /// `(a != b)`
    NotEqual,
    /// `(a < b)`
    Less,
    /// `(a <= b)`
    LessOrEqual,
    /// `(a > b)`
    Greater,
    /// `(a >= b)`
    GreaterOrEqual,
    /// `(c ? a : b)`
    Choice,
    /// `{b, a}`: in Verilog the last part has the lowest bits
    Joined,
    /// `{k{a}}`
    Repeated,
}

/// How an operator is written at two signs of its operands. Of one operand, the left sign counts; of a choice, the
/// signs of its two branches.
#[derive(Clone, Copy, PartialEq, Eq)]
pub struct OpRow {
    /// Whether the operator's values are signed.
    pub signed: bool,
    /// Whether the left operand, unsigned beside a signed one, is written as signed with a zero bit above it.
    pub widen_left: bool,
    /// The same of the right operand.
    pub widen_right: bool,
    /// The form that stands for the operator.
    pub text: OpText,
}

/// The row of the table of operators: how `op` is written where its operands have these signs.
pub fn op_row(op: Op, mix: Mix) -> OpRow
    ensures { result ≡ row_of op mix }
{
    macro_rules! row {
        ($text:ident $signed:literal $left:literal $right:literal) => {
            OpRow {
                signed: $signed,
                widen_left: $left,
                widen_right: $right,
                text: OpText::$text,
            }
        };
    }
    macro_rules! rows {
        ($uu:ident $us:ident $su:ident $ss:ident; $a:literal $b:literal $c:literal $d:literal; joined) => {
            match mix {
                Mix::UU => row!($uu $a false false),
                Mix::US => row!($us $b true false),
                Mix::SU => row!($su $c false true),
                Mix::SS => row!($ss $d false false),
            }
        };
        ($uu:ident $us:ident $su:ident $ss:ident; $a:literal $b:literal $c:literal $d:literal; apart) => {
            match mix {
                Mix::UU => row!($uu $a false false),
                Mix::US => row!($us $b false false),
                Mix::SU => row!($su $c false false),
                Mix::SS => row!($ss $d false false),
            }
        };
    }
    macro_rules! by_either {
        ($text:ident) => {
            rows!($text $text $text $text; false true true true; joined)
        };
    }
    macro_rules! by_left {
        ($unsigned:ident $signed:ident) => {
            rows!($unsigned $unsigned $signed $signed; false false true true; apart)
        };
    }
    macro_rules! always {
        ($text:ident $signed:literal $way:ident) => {
            rows!($text $text $text $text; $signed $signed $signed $signed; $way)
        };
    }
    match op {
        Op::Neg => always!(Negated true apart),
        Op::Not => by_left!(Inverted Inverted),
        Op::Add => by_either!(Plus),
        Op::Sub => always!(Minus true joined),
        Op::Mul => by_either!(Times),
        Op::Shl => by_left!(ShiftLeft ShiftLeft),
        Op::Shr => by_left!(ShiftRight ShiftRightSigned),
        Op::And => by_either!(BitAnd),
        Op::Or => by_either!(BitOr),
        Op::Xor => by_either!(BitXor),
        Op::Eq => always!(Equal false joined),
        Op::Ne => always!(NotEqual false joined),
        Op::Lt => always!(Less false joined),
        Op::Le => always!(LessOrEqual false joined),
        Op::Gt => always!(Greater false joined),
        Op::Ge => always!(GreaterOrEqual false joined),
        Op::Mux => by_either!(Choice),
        Op::Cat => always!(Joined false apart),
        Op::Replicate => always!(Repeated false apart),
    }
}
