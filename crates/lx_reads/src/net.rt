//! The net of a design: rows of what is read, and the signals that are driven.

use lx_text::List;

/// A signal that an assignment drives.
#[derive(Clone, Copy)]
pub struct Driven {
    pub signal: usize,
    /// 0 for a combinatorial statement, k + 1 for one of the domain of number k.
    pub driver: usize,
    pub line: u32,
    /// The number of the assignment's row.
    pub node: usize,
}

/// Rows of numbers: a number below that of the signals is a signal, and from there on it is the row at this place.
/// The row of each expression comes first.
#[derive(Drop)]
pub struct Net {
    pub rows: List<List<usize>>,
    /// The signals that are driven, in the order of the statements.
    pub driven: List<Driven>,
}
