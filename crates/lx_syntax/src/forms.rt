//! The forms that the nodes of a syntax tree have.

use lx_arena::Id;
use lx_pytree::PyNodes;
use lx_text::{List, Word};
use lx_token::Token;

/// An operator between two operands; the operators of one chain are of one level.
#[derive(Clone, Copy)]
pub enum Operator {
    Add,
    Sub,
    Mul,
    Floor,
    Remainder,
    ShiftLeft,
    ShiftRight,
    And,
    Or,
    Xor,
}

/// A comparison of two operands; `In` asks whether the right one holds the left.
#[derive(Clone, Copy)]
pub enum Comparison {
    Equal,
    Unequal,
    Less,
    LessEqual,
    Greater,
    GreaterEqual,
    In,
}

/// A sign before an operand.
#[derive(Clone, Copy)]
pub enum Prefix {
    Minus,
    Plus,
    Tilde,
}

/// A sign before an operand, and its line.
#[derive(Clone, Copy)]
pub struct Signed {
    pub line: u32,
    pub prefix: Prefix,
}

/// A condition and what else is chosen, in a conditional that begins on this line.
#[derive(Clone, Copy)]
pub struct Branching {
    pub line: u32,
    pub condition: Id<PyNodes>,
    pub value: Id<PyNodes>,
}

/// A key and its value.
#[derive(Clone, Copy)]
pub struct Couple {
    pub first: Id<PyNodes>,
    pub second: Id<PyNodes>,
}

/// An operator of a chain and its right operand.
#[derive(Clone, Copy)]
pub struct Link {
    pub operator: Operator,
    pub operand: Id<PyNodes>,
}

/// An argument of a call: by place, from a list, or by name.
#[derive(Clone, Copy)]
pub enum Argument {
    Placed(Id<PyNodes>),
    Starred(Id<PyNodes>),
    Keyed(Token, Id<PyNodes>),
}

/// An attribute, a call, a subscript, or a slice whose bounds may be missing.
#[derive(Drop)]
pub enum Trailer {
    Attribute(Token),
    Call(List<Argument>),
    Item(Id<PyNodes>),
    Slice(Option<Id<PyNodes>>, Option<Id<PyNodes>>),
}

/// Where a statement binds a value: a name, or an attribute of an object.
#[derive(Clone, Copy)]
pub enum Place {
    Name(Token),
    Attribute(Id<PyNodes>, Token),
}

/// A condition of an `if`, and its block.
#[derive(Drop)]
pub struct Branch {
    pub condition: Id<PyNodes>,
    pub body: List<Id<PyNodes>>,
}

/// What a node says as an expression. Its parts have lower places; names and texts are tokens of the source.
#[derive(Drop)]
pub enum ExprForm {
    /// It is no expression.
    Misshapen,
    /// What another node says: a bracketed expression, or an argument.
    Same(Id<PyNodes>),
    Name(Token),
    /// A number, where it is at most `2^127 - 1`.
    Number(Option<i128>),
    Quoted(Token),
    Nothing,
    Truth(bool),
    Tuple(List<Id<PyNodes>>),
    Listed(List<Id<PyNodes>>),
    Comprehension {
        item: Id<PyNodes>,
        names: List<Token>,
        source: Id<PyNodes>,
        filter: Option<Id<PyNodes>>,
    },
    Dictionary(List<Couple>),
    Choice {
        value: Id<PyNodes>,
        rest: List<Branching>,
    },
    Either(List<Id<PyNodes>>),
    Both(List<Id<PyNodes>>),
    Not {
        words: List<Token>,
        of: Id<PyNodes>,
    },
    Compare {
        by: Comparison,
        left: Id<PyNodes>,
        right: Id<PyNodes>,
    },
    IsNothing {
        negated: bool,
        of: Id<PyNodes>,
    },
    Chain {
        first: Id<PyNodes>,
        rest: List<Link>,
    },
    Prefixed {
        signs: List<Signed>,
        of: Id<PyNodes>,
    },
    Power {
        base: Id<PyNodes>,
        exponent: Id<PyNodes>,
    },
    Post {
        of: Id<PyNodes>,
        trailers: List<Trailer>,
    },
}

/// What a node says as a statement.
#[derive(Drop)]
pub enum StmtForm {
    /// It is no statement.
    NoStmt,
    Pass,
    Value(Id<PyNodes>),
    Bind {
        place: Place,
        value: Id<PyNodes>,
    },
    Add {
        place: Place,
        value: Id<PyNodes>,
    },
    If {
        branches: List<Branch>,
        rest: List<Id<PyNodes>>,
    },
    For {
        names: List<Token>,
        source: Id<PyNodes>,
        body: List<Id<PyNodes>>,
    },
}

/// A parameter, and its default where it has one.
#[derive(Clone, Copy)]
pub struct Parameter {
    pub name: Token,
    pub default: Option<Id<PyNodes>>,
}

/// A class: its line, name and bases, and the line, parameters and block of its `__init__`.
#[derive(Drop)]
pub struct ClassForm {
    pub line: u32,
    pub name: Token,
    pub bases: List<Token>,
    pub init_line: u32,
    pub params: List<Parameter>,
    pub body: List<Id<PyNodes>>,
}

/// What a node says as an expression and as a statement, and the line on which it begins.
#[derive(Drop)]
pub struct Node {
    pub line: u32,
    pub expr: ExprForm,
    pub stmt: StmtForm,
}

/// What a file says: its source, a node for each node of its tree, at the same place, and its classes in their order.
#[derive(Drop)]
pub struct Program {
    pub src: Word,
    pub nodes: List<Node>,
    pub classes: List<ClassForm>,
}
