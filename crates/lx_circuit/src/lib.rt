//! What a circuit of FHDL means: definitions, and the laws of settling.
#![tactic(auto)]

/// Why an expression has no shape.
#[derive(Clone, Copy, PartialEq, Eq)]
pub enum WidthFault {
    /// A joined or resulting width above 127; the width, at most 4,294,967,295.
    TooWide(u32),
    /// A shift amount or an index that is signed.
    SignedShift,
    /// An empty slice, or one past its operand's bits.
    BadSlice,
    /// A constant of 0 bits, or 0 copies.
    BadWidth,
}

pub mod laws;
