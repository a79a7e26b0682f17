//! The places that a system's parts wish for, and those that they get: regions of the address space, numbers of
//! banks of registers, numbers of interrupts (the SoC builder's `SoCRegion`, `csr_map` and `interrupt_map` of LiteX).

use lx_text::{List, Word};

/// A region of the address space that is wished for.
#[derive(Drop)]
pub struct RegionWish {
    pub name: Word,
    /// The address of its first byte, where the description states it.
    pub origin: Option<u64>,
    /// Its bytes, from 1 to 4,294,967,296.
    pub size: u64,
    /// Whether it lies in the cached window.
    pub cached: bool,
    pub line: u32,
}

/// A bank of registers, which needs a number.
#[derive(Drop)]
pub struct BankWish {
    pub name: Word,
    /// How many words of registers it has.
    pub words: u32,
    pub line: u32,
}

/// A number that is wished for a bank or an interrupt, where the description states it.
#[derive(Drop)]
pub struct Fix {
    pub name: Word,
    pub number: Option<u32>,
    pub line: u32,
}

/// All that a system wishes for, each list in declared order.
#[derive(Drop)]
pub struct Wishes {
    pub regions: List<RegionWish>,
    pub banks: List<BankWish>,
    /// The wishes for numbers of banks.
    pub fixes: List<Fix>,
    /// The modules that have an event manager, and so an interrupt.
    pub managers: List<Word>,
    /// The wishes for interrupts.
    pub irqs: List<Fix>,
}

/// A region that has its place.
#[derive(Drop)]
pub struct Region {
    pub name: Word,
    /// The address of its first byte.
    pub origin: u64,
    /// The bytes that were wished for.
    pub size: u64,
    /// The bytes that it takes: the size rounded up to a power of two, at least 4.
    pub rounded: u64,
    /// Whether it lies in the cached window.
    pub cached: bool,
}

/// A bank or an interrupt that has its number, from 0 to 31.
#[derive(Drop)]
pub struct Numbered {
    pub name: Word,
    pub number: u32,
}

/// Where all parts of a system are, each list in the order of its wishes.
#[derive(Drop)]
pub struct Placement {
    pub regions: List<Region>,
    pub banks: List<Numbered>,
    pub irqs: List<Numbered>,
}
