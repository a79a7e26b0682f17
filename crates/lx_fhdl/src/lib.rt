//! Circuits of FHDL as plain data: expressions in an arena, statements, signals and designs, the values of
//! expressions, and where the parts of a system are wished.
#![tactic(auto)]

pub mod design;
pub mod draft;
pub mod eval;
pub mod exprs;
pub mod laws;
pub mod places;
pub mod steps;
pub mod stmts;

pub use design::{Design, Domain, Memory, Port, PortMode, Signal, SyncPart};
pub use draft::Draft;
pub use eval::{eval_into, eval_node};
pub use exprs::{Expr, ExprId, Exprs, InExprs, SigId};
pub use places::{BankWish, Fix, Numbered, Placement, Region, RegionWish, Wishes};
pub use steps::Steps;
pub use stmts::{Arm, Branch, InStmts, InTargets, Stmt, StmtId, Stmts, Target, TargetId, Targets};
