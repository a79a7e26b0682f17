//! `csr.json`.

ghost use Rattle.std.specs.Prelude.{◌≡◌, ◌<◌, IsTrue, IfOk, OnOk, int_le, int_lt, map, negsuc, pos, string_bytes};
ghost use Rattle.serde_json.specs.Data.{number, put as with_member};
ghost use Rattle.serde_json.specs.Find.{of_integer};
ghost use Rattle.serde_json.specs.View.{members_view, view};
ghost use Rattle.lx_description.specs.Keeping.{is_value};
ghost use Rattle.lx_soc.specs.Told.{are_constants, are_numbered, are_regions, are_registers};
ghost use Rattle.lx_export.specs.Ascii.{are_ascii};
ghost use Rattle.lx_export.specs.Json.{bank_entry, banks_data, constant_entry, constants_data, json_data, json_text, region_entry, regions_data, register_entry, registers_data, value_data, with_entries};

use crate::orders::{address_of, bank_address, base_of, interrupt_constants};
use crate::texts::{access_word, put_lower, window_word};
use lx_csr::Register;
use lx_description::{ConstDecl, ConstValue};
use lx_fhdl::{Numbered, Region};
use lx_soc::System;
use lx_text::{NoMemory, Text};
use serde_json::{Map, Value, json};
use std::alloc::{AllocError, Global};

// A text of ASCII.
fn text_of(alloc: Global, bytes: &[u8]) -> Result<String, NoMemory>
    requires { IsTrue (are_ascii bytes.now) }
    ensures { IfOk result (λ text. string_bytes text ≡ bytes.now) }
{
    let mut text = String::new(alloc);
    for byte in bytes {
        text.push(char::from(*byte))?;
    }
    Ok(text)
}

// Puts a member into an object.
fn put(
    object: &mut Map<String, Value>,
    alloc: Global,
    key: &[u8],
    value: Value,
) -> Result<(), NoMemory>
    requires { IsTrue (are_ascii key.now) }
    ensures { OnOk result (members_view object.new.entries ≡ with_member key.now (view value) (members_view object.old.entries)) }
{
    let name = text_of(alloc, key)?;
    serde_json::put(object, alloc, name.as_str(), value)?;
    Ok(())
}

#[tactic(auto, using(std::proofs::lemmas::Int::ints))]
fn number_of(integer: i128) -> Value
    requires low { IsTrue (int_le (negsuc 9223372036854775807) integer) }
    requires high { IsTrue (int_lt integer (pos 18446744073709551616)) }
    ensures { view result ≡ number (of_integer integer) }
{
    if integer < 0 {
        Value::from(integer as i64)
    } else {
        Value::from(integer as u64)
    }
}

fn value_of(alloc: Global, value: &ConstValue) -> Result<Value, NoMemory>
    requires { IsTrue (is_value value.now) }
    ensures { IfOk result (λ v. view v ≡ value_data value.now) }
{
    match value {
        ConstValue::Number(number) => Ok(number_of(*number)),
        ConstValue::Text(text) => Ok(Value::from(text_of(alloc, text.as_bytes())?)),
        ConstValue::Nothing => Ok(Value::Null),
    }
}

fn put_constants(
    object: &mut Map<String, Value>,
    alloc: Global,
    constants: &[ConstDecl],
) -> Result<(), NoMemory>
    requires { IsTrue (are_constants constants.now) }
    ensures { OnOk result (members_view object.new.entries ≡ with_entries (members_view object.old.entries) (map constant_entry constants.now)) }
{
    for constant in constants {
        let mut name = Text::new(alloc);
        put_lower(&mut name, constant.name.as_bytes())?;
        let value = value_of(alloc, &constant.value)?;
        put(object, alloc, name.as_bytes(), value)?;
    }
    Ok(())
}

fn put_banks(
    object: &mut Map<String, Value>,
    alloc: Global,
    base: u64,
    banks: &[Numbered],
) -> Result<(), NoMemory>
    requires base { base < 4294967296 }
    requires names { IsTrue (are_numbered banks.now) }
    ensures { OnOk result (members_view object.new.entries ≡ with_entries (members_view object.old.entries) (map (bank_entry base) banks.now)) }
{
    for bank in banks {
        put(
            object,
            alloc,
            bank.name.as_bytes(),
            Value::from(bank_address(base, bank)),
        )?;
    }
    Ok(())
}

// What is told of a register.
fn register_value(alloc: Global, register: &Register) -> Result<Value, AllocError>
    ensures { IfOk result (λ v. view v ≡ (register_entry register.now).held) }
{
    let addr = address_of(register.words.as_slice());
    let size = register.words.len();
    let access = access_word(register.kind);
    json!(in alloc; {"addr": addr, "size": size, "type": access})
}

fn put_registers(
    object: &mut Map<String, Value>,
    alloc: Global,
    registers: &[Register],
) -> Result<(), NoMemory>
    requires { IsTrue (are_registers registers.now) }
    ensures { OnOk result (members_view object.new.entries ≡ with_entries (members_view object.old.entries) (map register_entry registers.now)) }
{
    for register in registers {
        let value = register_value(alloc, register)?;
        put(object, alloc, register.name.as_bytes(), value)?;
    }
    Ok(())
}

// What is told of a region.
fn region_value(alloc: Global, region: &Region) -> Result<Value, AllocError>
    ensures { IfOk result (λ v. view v ≡ (region_entry region.now).held) }
{
    let window = window_word(region.cached);
    json!(in alloc; {"base": region.origin, "size": region.size, "type": window})
}

fn put_regions(
    object: &mut Map<String, Value>,
    alloc: Global,
    regions: &[Region],
) -> Result<(), NoMemory>
    requires { IsTrue (are_regions regions.now) }
    ensures { OnOk result (members_view object.new.entries ≡ with_entries (members_view object.old.entries) (map region_entry regions.now)) }
{
    for region in regions {
        let value = region_value(alloc, region)?;
        put(object, alloc, region.name.as_bytes(), value)?;
    }
    Ok(())
}

// The four objects of a map.
fn constants_of(alloc: Global, s: &System) -> Result<Value, NoMemory>
    ensures { IfOk result (λ v. view v ≡ constants_data s.now.placement s.now.constants) }
{
    let interrupts = interrupt_constants(alloc, s.placement.irqs.as_slice())?;
    let mut object = Map::new(alloc);
    put_constants(&mut object, alloc, interrupts.as_slice())?;
    put_constants(&mut object, alloc, s.constants.as_slice())?;
    Ok(Value::from(object))
}

fn banks_of(alloc: Global, s: &System) -> Result<Value, NoMemory>
    ensures { IfOk result (λ v. view v ≡ banks_data s.now.placement) }
{
    let p = &s.placement;
    let mut object = Map::new(alloc);
    put_banks(
        &mut object,
        alloc,
        base_of(p.regions.as_slice()),
        p.banks.as_slice(),
    )?;
    Ok(Value::from(object))
}

fn registers_of(alloc: Global, s: &System) -> Result<Value, NoMemory>
    ensures { IfOk result (λ v. view v ≡ registers_data s.now.map) }
{
    let mut object = Map::new(alloc);
    put_registers(&mut object, alloc, s.map.registers())?;
    Ok(Value::from(object))
}

fn regions_of(alloc: Global, s: &System) -> Result<Value, NoMemory>
    ensures { IfOk result (λ v. view v ≡ regions_data s.now.placement) }
{
    let mut object = Map::new(alloc);
    put_regions(&mut object, alloc, s.placement.regions.as_slice())?;
    Ok(Value::from(object))
}

fn value_of_map(alloc: Global, s: &System) -> Result<Value, NoMemory>
    ensures { IfOk result (λ v. view v ≡ json_data s.now.map s.now.placement s.now.constants) }
{
    let constants = constants_of(alloc, s)?;
    let bases = banks_of(alloc, s)?;
    let registers = registers_of(alloc, s)?;
    let memories = regions_of(alloc, s)?;
    let mut object = Map::new(alloc);
    put(&mut object, alloc, b"constants", constants)?;
    put(&mut object, alloc, b"csr_bases", bases)?;
    put(&mut object, alloc, b"csr_registers", registers)?;
    put(&mut object, alloc, b"memories", memories)?;
    Ok(Value::from(object))
}

/// The map of a system as an object of JSON (RFC 8259) on one line, without blanks: `constants` (names in lower case, with a
/// number, a text or null; interrupts among them), `csr_bases` (the address of each bank), `csr_registers` (each with
/// `addr`, `size`, the number of its words, and `type`, `rw` or `ro`), `memories` (each with `base`, `size`, the bytes as
/// wished, and `type`, `cached` or `io`). Keys stand in the order of their bytes.
pub fn csr_json(alloc: Global, s: &System) -> Result<Text, NoMemory>
    ensures { IfOk result (λ t. t ≡ json_text s.now.map s.now.placement s.now.constants) }
{
    let value = value_of_map(alloc, s)?;
    let text = value.to_string(alloc)?;
    let mut out = Text::new(alloc);
    out.word(text.as_bytes())?;
    out.word(b"\n")?;
    Ok(out)
}
