//! The syntax of a description: what the nodes of its tree say.
#![tactic(auto)]

mod children;
mod classes;
mod exprs;
mod flat;
pub mod forms;
mod parts;
mod stmts;
mod trailers;
mod whole;
pub mod worked;

pub use forms::{
    Argument, Branch, Branching, ClassForm, Comparison, Couple, ExprForm, Link, Node, Operator,
    Parameter, Place, Prefix, Program, Signed, StmtForm, Trailer,
};
pub use whole::{Syntax, syntax_of};
