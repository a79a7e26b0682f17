//! What a port writes.

ghost use Rattle.std.specs.Prelude.{◌≤◌};

use lx_sheet::{MemoryOf, SignalOf};

/// What a port writes: its memory, the signals that it writes by, and the bits of a word and of its parts.
#[derive(Clone, Copy)]
pub struct Write<'a> {
    pub memory: MemoryOf<'a>,
    pub adr: SignalOf<'a>,
    pub dat_w: SignalOf<'a>,
    pub we: SignalOf<'a>,
    pub width: u8,
    pub part: u8,
    pub ghost some: { 1 ≤ part },
}
