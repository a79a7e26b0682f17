//! What answers on the bus beside the registers (LiteX's SoC builder: `add_ram`, `add_rom`, `bus.add_slave`).

use lx_fhdl::SigId;
use lx_text::{List, Word};

/// A slave of the bus, under the name of its region.
#[derive(Drop)]
pub struct SlaveDecl {
    pub name: Word,
    pub kind: SlaveKind,
    /// The line of its call.
    pub line: u32,
}

/// What answers at a region.
#[derive(Drop)]
pub enum SlaveKind {
    /// A memory that the bus reads and writes: its first words, of 32 bits. The other words start at 0.
    Ram(List<u32>),
    /// A memory that the bus reads, as a RAM's.
    Rom(List<u32>),
    /// The circuit, through a Wishbone interface: `adr` (30 bits, counting words), `dat_w` (32), `dat_r` (32), `sel` (4),
    /// `cyc`, `stb`, `we`, `ack`, `err` (Wishbone B4's names for a slave, without their endings).
    User(List<SigId>),
}
