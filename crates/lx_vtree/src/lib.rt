//! The tree of a Verilog module in arenas, and what it keeps.
#![tactic(auto)]

mod modules;
mod nodes;
mod places;
mod trees;

pub use modules::{Always, Assign, Decl, Initial, Memory, Module, Net, Parts, Port, WordInit};
pub use nodes::{ExprId, InExprs, InStmts, Literal, StmtId, VExpr, VStmt, VTarget};
pub use places::are_placed;
pub use trees::Nodes;
