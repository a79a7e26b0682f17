//! What comes of a node.

use lx_circuit::WidthFault;

/// What came of a node that was to be made.
#[derive(Clone, Copy)]
pub enum Outcome<T> {
    /// It stands there.
    Made(T),
    /// Its shape has this fault.
    Faulty(WidthFault),
    /// It names what isn't there, or isn't of the form that its operator asks for.
    Misplaced,
}
