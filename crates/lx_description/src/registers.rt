//! Registers that software reads and writes, and event managers (LiteX's CSR documentation: `CSRStorage`, `CSRStatus`,
//! `CSR`, `CSRField`; its event manager). All their signals are unsigned.

use lx_fhdl::SigId;
use lx_text::{List, Word};

/// Some bits of a register under a name (`CSRField`).
#[derive(Drop)]
pub struct Field {
    pub name: Word,
    /// The place of its lowest bit in the register.
    pub offset: u8,
    /// Its bits, at least 1; it lies inside its register.
    pub size: u8,
    /// Its first value, taken modulo 2 to its size.
    pub reset: i128,
    /// The line of its call; 0 where an event manager makes it.
    pub line: u32,
}

/// Who gives a register its value.
#[derive(Clone, Copy, PartialEq, Eq)]
pub enum RegKind {
    /// Software (`CSRStorage`).
    Storage,
    /// The circuit (`CSRStatus`).
    Status,
    /// Neither: the circuit sees each access (`CSR`).
    Raw,
    /// Events, which software clears: the register `pending` of an event manager, and no declared one.
    Pending,
}

/// A register as it is declared.
#[derive(Drop)]
pub struct RegDecl {
    /// Its own name, without those of the modules that it stands in.
    pub name: Word,
    pub kind: RegKind,
    /// Its bits, 1 to 64; at most 32 of a raw one.
    pub size: u8,
    /// Its first value, taken modulo 2 to its size.
    pub reset: i128,
    /// Whether a storage takes all its words at once, with its last (`atomic_write`).
    pub atomic: bool,
    /// Whether the circuit may write a storage (`write_from_dev`).
    pub from_dev: bool,
    /// Its fields in declared order. A raw register has none.
    pub fields: List<Field>,
    /// Of a storage `storage` and `re`, then `we` and `dat_w` where the circuit may write, then one for each field. Of a
    /// status `status` and `we`, then one for each field. Of a raw register `r`, `re`, `w`, `we`. `storage`, `status`,
    /// `dat_w`, `r` and `w` have the register's bits, a field's its own, every other one.
    pub signals: List<SigId>,
    /// The line of its call.
    pub line: u32,
}

/// When an event source fires.
#[derive(Clone, Copy, PartialEq, Eq)]
pub enum SourceKind {
    /// Where its trigger is 1 (`EventSourcePulse`).
    Pulse,
    /// Where its trigger is 0 and was 1 (`EventSourceProcess`).
    Falling,
    /// Where its trigger is 1 and was 0 (`EventSourceProcess`).
    Rising,
    /// As long as its trigger is 1 (`EventSourceLevel`).
    Level,
}

/// A source of events.
#[derive(Drop)]
pub struct SourceDecl {
    pub name: Word,
    pub kind: SourceKind,
    /// `trigger`, `status`, `pending`, `clear`, of one bit each.
    pub signals: List<SigId>,
}

/// An event manager (`EventManager`). Its registers `status`, `pending` and `enable` have one bit for each source.
#[derive(Drop)]
pub struct ManagerDecl {
    /// Its sources, 1 to 32, the first one's bit the lowest.
    pub sources: List<SourceDecl>,
    /// One bit: whether some source is pending and enabled.
    pub irq: SigId,
    /// The value of its register `enable`: a signal of generated hardware with one bit for each source.
    pub enable: SigId,
    /// The line of its call.
    pub line: u32,
}
