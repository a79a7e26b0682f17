//! The register map: registers at the addresses of the bus.

ghost use Rattle.std.specs.Prelude.{◌≡◌, ℕ, ◌++◌, ◌+◌, ◌*◌, ◌≤◌, flat_map, map as each, slice_get, IfOk, OnOk};
ghost use Rattle.std.specs.List.{range_with_len};
ghost use Rattle.lx_fhdl.specs.Keeping.{EachOf};
ghost use Rattle.lx_csr.specs.declared.registers.WordPlace.{WordPlace};
ghost use Rattle.lx_csr.specs.Laws.{AreInBanks};
ghost use Rattle.lx_csr.specs.Mapped.{AreShort, IsHoused, IsShort, base_of, map_of, mapped, numbered, registers_of};

use crate::gathering::{copied_fields, copied_signals};
use crate::registers::{Bank, Register, RegisterMap, Registers, WordPlace};
use lx_fhdl::{Numbered, Placement, Region};
use lx_text::{List, NoMemory};
use std::alloc::Global;

// How many numbers banks may have.
const BANKS: u32 = 32;

// The bytes of a bank.
const PAGING: u32 = 0x800;

// Where the registers begin.
fn base_of(regions: &[Region]) -> u32
    requires { base_of regions.now ≤ 4294967295 }
    ensures { result ≡ base_of regions.now }
{
    match regions {
        [first, ..] => first.origin as u32,
        [] => 0,
    }
}

// Words from a bank's start on, in the bank that begins at this address.
fn moved(alloc: Global, start: u32, words: &[WordPlace]) -> Result<List<WordPlace>, NoMemory>
    requires start { start + 2048 ≤ 4294967296 }
    requires short { EachOf (λ (w : WordPlace). w.addr + 4 ≤ 2048) words.now }
    ensures { IfOk result (λ list. list ≡ each (λ (w : WordPlace). record w { addr = start + w.addr }) words.now) }
{
    let mut list = List::new(alloc);
    for word in words {
        list.push(WordPlace {
            addr: start + word.addr,
            low: word.low,
            len: word.len,
        })?;
    }
    Ok(list)
}

// A register of the bank with this number, which begins at this address.
fn mapped(alloc: Global, start: u32, number: u32, register: &Register) -> Result<Register, NoMemory>
    requires start { start + 2048 ≤ 4294967296 }
    requires short { IsShort register.now }
    ensures { IfOk result (λ made. made ≡ mapped start number register.now) }
{
    Ok(Register {
        name: register.name.copied(alloc)?,
        bank: number,
        kind: register.kind,
        size: register.size,
        reset: register.reset,
        atomic: register.atomic,
        from_dev: register.from_dev,
        fields: copied_fields(alloc, register.fields.as_slice())?,
        words: moved(alloc, start, register.words.as_slice())?,
        signals: copied_signals(alloc, register.signals.as_slice())?,
        line: register.line,
    })
}

fn push_mapped(
    list: &mut List<Register>,
    alloc: Global,
    start: u32,
    number: u32,
    registers: &[Register],
) -> Result<(), NoMemory>
    requires start { start + 2048 ≤ 4294967296 }
    requires short { EachOf IsShort registers.now }
    ensures { OnOk result (list.new ≡ list.old ++ each (mapped start number) registers.now) }
{
    for register in registers {
        list.push(mapped(alloc, start, number, register)?)?;
    }
    Ok(())
}

// The registers of the bank at this place, where there is one.
fn registers_at(banks: &[Bank], place: usize) -> &[Register]
    requires { AreShort banks.now }
    ensures bank { result.now ≡ registers_of (slice_get banks.now place) }
    ensures short { EachOf IsShort result.now }
{
    match banks.get(place) {
        Some(bank) => bank.registers.as_slice(),
        None => &[],
    }
}

// The registers of the bank that has this number.
fn bank_at<'a>(given: &[Numbered], banks: &'a [Bank], number: u32) -> &'a [Register]
    requires { AreShort banks.now }
    ensures bank { (base : ℕ) → numbered base given.now banks.now number ≡ each (mapped (base + 2048 * number) number) result.now }
    ensures short { EachOf IsShort result.now }
{
    for (i, place) in given.iter().enumerate() {
        if place.number == number {
            return registers_at(banks, i);
        }
    }
    &[]
}

// All registers in the order of their banks' numbers.
fn all_mapped(
    alloc: Global,
    base: u32,
    given: &[Numbered],
    banks: &[Bank],
) -> Result<List<Register>, NoMemory>
    requires base { base + 65536 ≤ 4294967296 }
    requires short { AreShort banks.now }
    ensures { IfOk result (λ list. list ≡ flat_map (numbered base given.now banks.now) (range_with_len 0 32)) }
{
    let mut list = List::new(alloc);
    for number in 0..BANKS {
        let registers = bank_at(given, banks, number);
        push_mapped(&mut list, alloc, base + PAGING * number, number, registers)?;
    }
    Ok(list)
}

/// The register map: bank by bank in the order of their numbers, bank n from 0x800 times n past the origin of the first
/// region on; in a bank words of 32 bits follow one another without gaps.
pub fn map(alloc: Global, r: &Registers, p: &Placement) -> Result<RegisterMap, NoMemory>
    requires { IsHoused r.now p.now }
    ensures map { IfOk result (λ m. m ≡ map_of r.now p.now) }
    ensures banks { IfOk result (AreInBanks p.now) }
{
    let banks = r.banks();
    if banks.is_empty() {
        return Ok(RegisterMap::of(List::new(alloc)));
    }
    let base = base_of(p.regions.as_slice());
    let list = all_mapped(alloc, base, p.banks.as_slice(), banks)?;
    Ok(RegisterMap::of(list))
}
