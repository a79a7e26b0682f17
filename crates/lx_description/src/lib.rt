//! Descriptions: the circuit that a text describes, with all that it declares beside: registers, event managers,
//! constants, FSMs, slaves of the bus, and the places that it wishes for.
#![tactic(auto)]

pub mod description;
pub mod fsms;
pub mod laws;
pub mod modules;
mod plain_module;
pub mod registers;
pub mod slaves;

pub use description::Description;
pub use fsms::{
    Asked, FsmArm, FsmBranch, FsmDecl, FsmPlace, FsmStmt, FsmStmtId, FsmStmts, InFsmStmts,
    StateDecl,
};
pub use modules::{ConstDecl, ConstValue, ModuleDecl, Part};
pub use plain_module::is_plain;
pub use registers::{Field, ManagerDecl, RegDecl, RegKind, SourceDecl, SourceKind};
pub use slaves::{SlaveDecl, SlaveKind};
