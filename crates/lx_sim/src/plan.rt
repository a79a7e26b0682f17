//! What is fixed when a simulator is made: the lowered design, and an order of its signals and expressions.

use lx_fhdl::{Design, Exprs};
use lx_num::Shape;
use lx_sheet::Drive;
use lx_text::List;

/// What is fixed when a simulator is made.
#[derive(Drop)]
pub(crate) struct Plan {
    /// The lowered design.
    pub(crate) design: Design,
    /// Its expressions, with 0 in place of those that read words.
    pub(crate) exprs: Exprs,
    /// The shapes of its expressions.
    pub(crate) shapes: List<Shape>,
    /// What drives each of its signals.
    pub(crate) drives: List<Drive>,
    /// Its signals, each after those that it reads.
    pub(crate) order: List<usize>,
    /// The expressions that are evaluated before the signal at each place of the order, and those behind the last one.
    pub(crate) buckets: List<List<usize>>,
}
