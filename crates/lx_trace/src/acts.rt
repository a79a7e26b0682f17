//! What the lines of a trace do.

use lx_fhdl::SigId;

/// The clock domains that rise together in a step: bit i for domain i. A bit without a domain is not looked at.
#[derive(Clone, Copy, PartialEq, Eq)]
pub struct Event {
    pub rises: u32,
}

/// What a line of a trace does.
#[derive(Clone, Copy)]
pub enum TraceAct {
    /// The input has the value from now on.
    Set(SigId, i128),
    /// So many steps with the same event.
    Run(u32, Event),
    /// The value of a signal is told.
    Show(SigId),
}

/// A line of a trace that does something, with its number in the file, from 1 on.
#[derive(Clone, Copy)]
pub struct TraceLine {
    pub line: u32,
    pub act: TraceAct,
}
