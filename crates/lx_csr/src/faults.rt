//! The faults of a system's registers.

ghost use Rattle.std.specs.Prelude.{◌≡◌, ◌++◌, ◌∷◌, [], flat_map, OnOk};
ghost use Rattle.lx_alloc.specs.Judged.{Judged, each_pair};
ghost use Rattle.lx_names.specs.Tables.{names};
ghost use Rattle.lx_csr.specs.Faults.{bank_faults, field_faults, is_among, name_fault, register_faults, taken_faults, taken_first, top_faults};

use crate::c_words::is_c_word;
use crate::names::{Defined, bare};
use crate::registers::{Bank, Register};
use lx_description::{Field, Part};
use lx_names::Table;
use lx_text::{Fault, Kind, Refusal, Word};
use std::alloc::Global;

// The refusal that tells a fault.
fn refusal(line: u32, kind: Kind) -> Refusal
    ensures { result ≡ Refusal.Fault (record { line = line; kind = kind }) }
{
    Refusal::Fault(Fault { line, kind })
}

fn check_part(alloc: Global, part: &Part) -> Result<(), Refusal>
    ensures { Judged (top_faults part.now) result }
{
    match part {
        Part::Reg(register) => {
            let name = Word::new(alloc, bare(register.name.as_bytes()))?;
            Err(refusal(register.line, Kind::TopRegister(name)))
        }
        _ => Ok(()),
    }
}

/// A register among the attributes of the top.
pub(crate) fn check_top(alloc: Global, parts: &[Part]) -> Result<(), Refusal>
    ensures { Judged (flat_map top_faults parts.now) result }
{
    for part in parts {
        check_part(alloc, part)?;
    }
    Ok(())
}

// Whether a name is taken by an earlier one; of headers, or is a word that they must not define.
fn is_taken(headers: bool, taken: &Table<u32>, name: &[u8]) -> bool
    ensures { result ≡ is_among name.now (taken_first headers ++ names taken.now) }
{
    (headers && is_c_word(name)) || taken.get(name).is_some()
}

// Takes a name.
fn check_name(
    taken: &mut Table<u32>,
    alloc: Global,
    headers: bool,
    name: &Defined,
) -> Result<(), Refusal>
    ensures taken { OnOk result (names taken.new ≡ names taken.old ++ name.now.text ∷ []) }
    ensures fault { Judged (name_fault (taken_first headers ++ names taken.old) name.now) result }
{
    if is_taken(headers, taken, name.text.as_bytes()) {
        let text = name.text.copied(alloc)?;
        return Err(refusal(name.line, Kind::NameTaken(text)));
    }
    taken.set(name.text.as_bytes(), name.line)?;
    Ok(())
}

/// Names in their order: of headers, or that are wished.
pub(crate) fn check_names(alloc: Global, headers: bool, names: &[Defined]) -> Result<(), Refusal>
    ensures { Judged (taken_faults (taken_first headers) names.now) result }
{
    let mut taken = Table::new(alloc);
    for name in names {
        check_name(&mut taken, alloc, headers, name)?;
    }
    Ok(())
}

// A field that begins before the end of an earlier one.
fn check_pair(alloc: Global, later: &Field, earlier: &Field) -> Result<(), Refusal>
    ensures { Judged (field_faults later.now earlier.now) result }
{
    if (later.offset as u32) < earlier.offset as u32 + earlier.size as u32 {
        let first = earlier.name.copied(alloc)?;
        let second = later.name.copied(alloc)?;
        return Err(refusal(later.line, Kind::FieldOverlap(first, second)));
    }
    Ok(())
}

fn check_field(alloc: Global, later: &Field, before: &[Field]) -> Result<(), Refusal>
    ensures { Judged (flat_map (field_faults later.now) before.now) result }
{
    for earlier in before {
        check_pair(alloc, later, earlier)?;
    }
    Ok(())
}

// The fields of a register. As each has a bit, no more than its bits come before the first that is refused.
fn check_pairs(alloc: Global, fields: &[Field]) -> Result<(), Refusal>
    ensures { Judged (each_pair field_faults [] fields.now) result }
{
    for (i, field) in fields.iter().enumerate() {
        check_field(alloc, field, &fields[..i])?;
    }
    Ok(())
}

fn check_registers(alloc: Global, registers: &[Register]) -> Result<(), Refusal>
    ensures { Judged (flat_map register_faults registers.now) result }
{
    for register in registers {
        check_pairs(alloc, register.fields.as_slice())?;
    }
    Ok(())
}

/// The fields of all registers.
pub(crate) fn check_fields(alloc: Global, banks: &[Bank]) -> Result<(), Refusal>
    ensures { Judged (flat_map bank_faults banks.now) result }
{
    for bank in banks {
        check_registers(alloc, bank.registers.as_slice())?;
    }
    Ok(())
}
