//! `csr.csv`.

ghost use Rattle.std.specs.Prelude.{◌≡◌, ◌++◌, ◌<◌, flat_map, IfOk, OnOk};
ghost use Rattle.lx_export.specs.Csv.{bank_row, constant_row, csv_text, region_row, register_row, value_text};

use crate::orders::{address_of, bank_address, base_of, by_number, by_origin, interrupt_constants};
use crate::texts::{access_word, put_address, put_lower, window_word};
use lx_csr::Register;
use lx_description::{ConstDecl, ConstValue};
use lx_fhdl::{Numbered, Region};
use lx_soc::System;
use lx_text::{NoMemory, Text};
use std::alloc::Global;

#[tactic(auto, unfolding(crate::specs::Csv::bank_row))]
fn put_bank(out: &mut Text, base: u64, bank: &Numbered) -> Result<(), NoMemory>
    requires { base < 4294967296 }
    ensures { OnOk result (out.new ≡ out.old ++ bank_row base bank.now) }
{
    out.word(b"csr_base,")?;
    out.word(bank.name.as_bytes())?;
    out.word(b",")?;
    put_address(out, bank_address(base, bank))?;
    out.word(b",,\n")?;
    Ok(())
}

fn put_banks(out: &mut Text, base: u64, banks: &[Numbered]) -> Result<(), NoMemory>
    requires { base < 4294967296 }
    ensures { OnOk result (out.new ≡ out.old ++ flat_map (bank_row base) banks.now) }
{
    for bank in banks {
        put_bank(out, base, bank)?;
    }
    Ok(())
}

#[tactic(auto, unfolding(crate::specs::Csv::register_row))]
fn put_register(out: &mut Text, register: &Register) -> Result<(), NoMemory>
    ensures { OnOk result (out.new ≡ out.old ++ register_row register.now) }
{
    out.word(b"csr_register,")?;
    out.word(register.name.as_bytes())?;
    out.word(b",")?;
    put_address(out, address_of(register.words.as_slice()) as u64)?;
    out.word(b",")?;
    out.count(register.words.len() as u128)?;
    out.word(b",")?;
    out.word(access_word(register.kind).as_bytes())?;
    out.word(b"\n")?;
    Ok(())
}

fn put_registers(out: &mut Text, registers: &[Register]) -> Result<(), NoMemory>
    ensures { OnOk result (out.new ≡ out.old ++ flat_map register_row registers.now) }
{
    for register in registers {
        put_register(out, register)?;
    }
    Ok(())
}

fn put_value(out: &mut Text, value: &ConstValue) -> Result<(), NoMemory>
    ensures { OnOk result (out.new ≡ out.old ++ value_text value.now) }
{
    match value {
        ConstValue::Number(number) => out.dec(*number),
        ConstValue::Text(text) => out.word(text.as_bytes()),
        ConstValue::Nothing => out.word(b"None"),
    }
}

#[tactic(auto, unfolding(crate::specs::Csv::constant_row))]
fn put_constant(out: &mut Text, constant: &ConstDecl) -> Result<(), NoMemory>
    ensures { OnOk result (out.new ≡ out.old ++ constant_row constant.now) }
{
    out.word(b"constant,")?;
    put_lower(out, constant.name.as_bytes())?;
    out.word(b",")?;
    put_value(out, &constant.value)?;
    out.word(b",,\n")?;
    Ok(())
}

fn put_constants(out: &mut Text, constants: &[ConstDecl]) -> Result<(), NoMemory>
    ensures { OnOk result (out.new ≡ out.old ++ flat_map constant_row constants.now) }
{
    for constant in constants {
        put_constant(out, constant)?;
    }
    Ok(())
}

#[tactic(auto, unfolding(crate::specs::Csv::region_row))]
fn put_region(out: &mut Text, region: &Region) -> Result<(), NoMemory>
    ensures { OnOk result (out.new ≡ out.old ++ region_row region.now) }
{
    out.word(b"memory_region,")?;
    out.word(region.name.as_bytes())?;
    out.word(b",")?;
    put_address(out, region.origin)?;
    out.word(b",")?;
    out.count(region.size as u128)?;
    out.word(b",")?;
    out.word(window_word(region.cached).as_bytes())?;
    out.word(b"\n")?;
    Ok(())
}

fn put_regions(out: &mut Text, regions: &[Region]) -> Result<(), NoMemory>
    ensures { OnOk result (out.new ≡ out.old ++ flat_map region_row regions.now) }
{
    for region in regions {
        put_region(out, region)?;
    }
    Ok(())
}

/// The map of a system as a table of five columns, one row a line: `csr_base` with the address of each bank, by number;
/// `csr_register` with the address, the number of words and `rw` or `ro`, by address; `constant` with the value, `None`
/// without one, and the name in lower case: first the interrupts by number; `memory_region` with origin, bytes as wished
/// and `cached` or `io`, by origin.
pub fn csr_csv(alloc: Global, s: &System) -> Result<Text, NoMemory>
    ensures { IfOk result (λ t. t ≡ csv_text s.now.map s.now.placement s.now.constants) }
{
    let p = &s.placement;
    let mut out = Text::new(alloc);
    let banks = by_number(alloc, p.banks.as_slice())?;
    put_banks(&mut out, base_of(p.regions.as_slice()), banks.as_slice())?;
    put_registers(&mut out, s.map.registers())?;
    let interrupts = interrupt_constants(alloc, p.irqs.as_slice())?;
    put_constants(&mut out, interrupts.as_slice())?;
    put_constants(&mut out, s.constants.as_slice())?;
    let regions = by_origin(alloc, p.regions.as_slice())?;
    put_regions(&mut out, regions.as_slice())?;
    Ok(out)
}
