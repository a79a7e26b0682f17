//! How far a run may go down.

/// So many expressions and statements may be run one within another; past that there is no memory. A run within another
/// takes native stack, and this bounds it.
pub(crate) const GREATEST_NESTED: u32 = 1_800;

/// How far a run may still go down.
#[derive(Clone, Copy)]
pub struct Levels {
    /// How many classes may still be made one within another.
    pub classes: u32,
    /// How many expressions and statements may still be run one within another.
    pub nested: u32,
}
