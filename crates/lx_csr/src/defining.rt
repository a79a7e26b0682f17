//! The names that the headers of a system define, in their order.

ghost use Rattle.std.specs.Prelude.{◌≡◌, ◌++◌, ◌∷◌, [], flat_map, map, IfOk, OnOk};
ghost use Rattle.lx_csr.specs.Defined.{accessors, all_region_names, bank_names, constant_name, field_line, field_names, interrupt_name, region_names, register_names, fix_name, size_name};

use crate::names::{Defined, csr_macro, joined, plain_macro};
use crate::registers::{Bank, Register};
use lx_description::{ConstDecl, Field, RegKind};
use lx_fhdl::{Fix, RegionWish};
use lx_text::{List, NoMemory, Text, Word};
use std::alloc::Global;

fn field_line(register: u32, line: u32) -> u32
    ensures { result ≡ field_line register line }
{
    if line == 0 { register } else { line }
}

// The macros of a field.
fn push_field(
    names: &mut List<Defined>,
    alloc: Global,
    register: &Register,
    field: &Field,
) -> Result<(), NoMemory>
    ensures { OnOk result (names.new ≡ names.old ++ field_names register.now field.now) }
{
    let name = joined(alloc, register.name.as_bytes(), field.name.as_bytes())?;
    let line = field_line(register.line, field.line);
    names.push(Defined {
        text: csr_macro(alloc, name.as_bytes(), b"_OFFSET")?,
        line,
    })?;
    names.push(Defined {
        text: csr_macro(alloc, name.as_bytes(), b"_SIZE")?,
        line,
    })
}

fn push_fields(
    names: &mut List<Defined>,
    alloc: Global,
    register: &Register,
) -> Result<(), NoMemory>
    ensures { OnOk result (names.new ≡ names.old ++ flat_map (field_names register.now) register.now.fields) }
{
    for field in register.fields.as_slice() {
        push_field(names, alloc, register, field)?;
    }
    Ok(())
}

// A function of `csr.h`.
fn accessor(alloc: Global, name: &[u8], suffix: &[u8]) -> Result<Word, NoMemory>
    ensures { IfOk result (λ word. word ≡ name.now ++ suffix.now) }
{
    let mut text = Text::new(alloc);
    text.word(name)?;
    text.word(suffix)?;
    Ok(Word::from_list(text.into_list()))
}

fn push_accessors(
    names: &mut List<Defined>,
    alloc: Global,
    register: &Register,
) -> Result<(), NoMemory>
    ensures { OnOk result (names.new ≡ names.old ++ accessors register.now.kind register.now) }
{
    let name = register.name.as_bytes();
    let line = register.line;
    names.push(Defined {
        text: accessor(alloc, name, b"_read")?,
        line,
    })?;
    if register.kind == RegKind::Status {
        return Ok(());
    }
    names.push(Defined {
        text: accessor(alloc, name, b"_write")?,
        line,
    })
}

// The macros and accessors of a register.
fn push_register(
    names: &mut List<Defined>,
    alloc: Global,
    register: &Register,
) -> Result<(), NoMemory>
    ensures { OnOk result (names.new ≡ names.old ++ register_names register.now) }
{
    let name = register.name.as_bytes();
    let line = register.line;
    names.push(Defined {
        text: csr_macro(alloc, name, b"_ADDR")?,
        line,
    })?;
    names.push(Defined {
        text: csr_macro(alloc, name, b"_SIZE")?,
        line,
    })?;
    push_fields(names, alloc, register)?;
    push_accessors(names, alloc, register)
}

// A bank's macro, and the names of its registers.
fn push_bank(names: &mut List<Defined>, alloc: Global, bank: &Bank) -> Result<(), NoMemory>
    ensures { OnOk result (names.new ≡ names.old ++ bank_names bank.now) }
{
    names.push(Defined {
        text: csr_macro(alloc, bank.wish.name.as_bytes(), b"_BASE")?,
        line: bank.wish.line,
    })?;
    for register in bank.registers.as_slice() {
        push_register(names, alloc, register)?;
    }
    Ok(())
}

pub(crate) fn push_banks(
    names: &mut List<Defined>,
    alloc: Global,
    banks: &[Bank],
) -> Result<(), NoMemory>
    ensures { OnOk result (names.new ≡ names.old ++ flat_map bank_names banks.now) }
{
    for bank in banks {
        push_bank(names, alloc, bank)?;
    }
    Ok(())
}

pub(crate) fn push_interrupts(
    names: &mut List<Defined>,
    alloc: Global,
    irqs: &[Fix],
) -> Result<(), NoMemory>
    ensures { OnOk result (names.new ≡ names.old ++ map interrupt_name irqs.now) }
{
    for irq in irqs {
        names.push(Defined {
            text: plain_macro(alloc, irq.name.as_bytes(), b"_INTERRUPT")?,
            line: irq.line,
        })?;
    }
    Ok(())
}

pub(crate) fn push_constants(
    names: &mut List<Defined>,
    alloc: Global,
    constants: &[ConstDecl],
) -> Result<(), NoMemory>
    ensures { OnOk result (names.new ≡ names.old ++ map constant_name constants.now) }
{
    for constant in constants {
        names.push(Defined {
            text: plain_macro(alloc, constant.name.as_bytes(), b"")?,
            line: constant.line,
        })?;
    }
    Ok(())
}

fn push_size(names: &mut List<Defined>, alloc: Global, region: &RegionWish) -> Result<(), NoMemory>
    ensures { OnOk result (names.new ≡ names.old ++ size_name region.now ∷ []) }
{
    names.push(Defined {
        text: plain_macro(alloc, region.name.as_bytes(), b"_SIZE")?,
        line: region.line,
    })
}

fn push_region(
    names: &mut List<Defined>,
    alloc: Global,
    region: &RegionWish,
) -> Result<(), NoMemory>
    ensures { OnOk result (names.new ≡ names.old ++ region_names region.now) }
{
    names.push(Defined {
        text: plain_macro(alloc, region.name.as_bytes(), b"_BASE")?,
        line: region.line,
    })?;
    push_size(names, alloc, region)
}

// The first region is that of the registers.
pub(crate) fn push_regions(
    names: &mut List<Defined>,
    alloc: Global,
    regions: &[RegionWish],
) -> Result<(), NoMemory>
    ensures { OnOk result (names.new ≡ names.old ++ all_region_names regions.now) }
{
    if let [first, rest @ ..] = regions {
        push_size(names, alloc, first)?;
        for region in rest {
            push_region(names, alloc, region)?;
        }
    }
    Ok(())
}

/// The names for which banks' numbers are wished.
pub(crate) fn wish_names(alloc: Global, fixes: &[Fix]) -> Result<List<Defined>, NoMemory>
    ensures { IfOk result (λ names. names ≡ map fix_name fixes.now) }
{
    let mut names = List::new(alloc);
    for fix in fixes {
        names.push(Defined {
            text: fix.name.copied(alloc)?,
            line: fix.line,
        })?;
    }
    Ok(names)
}
