//! How the net of a signal is driven.

use lx_fhdl::{ExprId, StmtId};
use lx_text::List;

/// How the net of a signal is driven.
#[derive(Drop)]
pub enum Drive {
    /// An input.
    Input,
    /// An `assign` of the reset value.
    Undriven,
    /// An `assign` of an expression.
    CombAssign(ExprId),
    /// A block of `always @(*)`.
    CombBlock(List<StmtId>),
    /// A block at the rise of a domain's clock.
    Sync { domain: usize, body: List<StmtId> },
}
