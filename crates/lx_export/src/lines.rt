//! The listing of a map.

ghost use Rattle.std.specs.Prelude.{◌≡◌, ◌++◌, ◌<◌, flat_map, IfOk, OnOk};
ghost use Rattle.lx_export.specs.Listing.{bank_line, interrupt_line, listing_text, region_line, register_line};

use crate::orders::{address_of, bank_address, base_of, by_number, by_origin};
use crate::texts::{access_word, put_address, window_word};
use lx_csr::Register;
use lx_fhdl::{Numbered, Region};
use lx_soc::System;
use lx_text::{NoMemory, Text};
use std::alloc::Global;

#[tactic(auto, unfolding(crate::specs::Listing::region_line))]
fn put_region(out: &mut Text, region: &Region) -> Result<(), NoMemory>
    ensures { OnOk result (out.new ≡ out.old ++ region_line region.now) }
{
    out.word(b"region ")?;
    put_address(out, region.origin)?;
    out.word(b" ")?;
    put_address(out, region.size)?;
    out.word(b" ")?;
    out.word(window_word(region.cached).as_bytes())?;
    out.word(b" ")?;
    out.word(region.name.as_bytes())?;
    out.word(b"\n")?;
    Ok(())
}

fn put_regions(out: &mut Text, regions: &[Region]) -> Result<(), NoMemory>
    ensures { OnOk result (out.new ≡ out.old ++ flat_map region_line regions.now) }
{
    for region in regions {
        put_region(out, region)?;
    }
    Ok(())
}

#[tactic(auto, unfolding(crate::specs::Listing::bank_line))]
fn put_bank(out: &mut Text, base: u64, bank: &Numbered) -> Result<(), NoMemory>
    requires { base < 4294967296 }
    ensures { OnOk result (out.new ≡ out.old ++ bank_line base bank.now) }
{
    out.word(b"bank ")?;
    out.count(bank.number as u128)?;
    out.word(b" ")?;
    put_address(out, bank_address(base, bank))?;
    out.word(b" ")?;
    out.word(bank.name.as_bytes())?;
    out.word(b"\n")?;
    Ok(())
}

fn put_banks(out: &mut Text, base: u64, banks: &[Numbered]) -> Result<(), NoMemory>
    requires { base < 4294967296 }
    ensures { OnOk result (out.new ≡ out.old ++ flat_map (bank_line base) banks.now) }
{
    for bank in banks {
        put_bank(out, base, bank)?;
    }
    Ok(())
}

#[tactic(auto, unfolding(crate::specs::Listing::register_line))]
fn put_register(out: &mut Text, register: &Register) -> Result<(), NoMemory>
    ensures { OnOk result (out.new ≡ out.old ++ register_line register.now) }
{
    out.word(b"register ")?;
    put_address(out, address_of(register.words.as_slice()) as u64)?;
    out.word(b" ")?;
    out.count(register.size as u128)?;
    out.word(b" ")?;
    out.word(access_word(register.kind).as_bytes())?;
    out.word(b" ")?;
    out.word(register.name.as_bytes())?;
    out.word(b"\n")?;
    Ok(())
}

fn put_registers(out: &mut Text, registers: &[Register]) -> Result<(), NoMemory>
    ensures { OnOk result (out.new ≡ out.old ++ flat_map register_line registers.now) }
{
    for register in registers {
        put_register(out, register)?;
    }
    Ok(())
}

#[tactic(auto, unfolding(crate::specs::Listing::interrupt_line))]
fn put_interrupt(out: &mut Text, interrupt: &Numbered) -> Result<(), NoMemory>
    ensures { OnOk result (out.new ≡ out.old ++ interrupt_line interrupt.now) }
{
    out.word(b"interrupt ")?;
    out.count(interrupt.number as u128)?;
    out.word(b" ")?;
    out.word(interrupt.name.as_bytes())?;
    out.word(b"\n")?;
    Ok(())
}

fn put_interrupts(out: &mut Text, interrupts: &[Numbered]) -> Result<(), NoMemory>
    ensures { OnOk result (out.new ≡ out.old ++ flat_map interrupt_line interrupts.now) }
{
    for interrupt in interrupts {
        put_interrupt(out, interrupt)?;
    }
    Ok(())
}

/// The map of a system for a reader, one part a line: `region` with origin, bytes as wished, `cached` or `io` and name, by
/// origin; `bank` with number, address and name, by number; `register` with address, bits, `rw` or `ro` and full name, by
/// address; `interrupt` with number and the name of its module, by number.
pub fn listing(alloc: Global, s: &System) -> Result<Text, NoMemory>
    ensures { IfOk result (λ t. t ≡ listing_text s.now.map s.now.placement) }
{
    let p = &s.placement;
    let mut out = Text::new(alloc);
    let regions = by_origin(alloc, p.regions.as_slice())?;
    put_regions(&mut out, regions.as_slice())?;
    let banks = by_number(alloc, p.banks.as_slice())?;
    put_banks(&mut out, base_of(p.regions.as_slice()), banks.as_slice())?;
    put_registers(&mut out, s.map.registers())?;
    let interrupts = by_number(alloc, p.irqs.as_slice())?;
    put_interrupts(&mut out, interrupts.as_slice())?;
    Ok(out)
}
