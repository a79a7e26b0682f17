//! Whether registers, event managers and constants are such as descriptions have.

ghost use Rattle.std.specs.Prelude.{◌≡◌, ◌++◌, map, IfOk, OnOk};
ghost use Rattle.std.specs.List.{list_all};
ghost use Rattle.lx_description.specs.Keeping as keeping;
ghost use Rattle.lx_description.specs.Kept as kept;
ghost use Rattle.lx_description.specs.Wires as wires;
ghost use Rattle.lx_description.specs.declared.registers.Field.{Field};
ghost use Rattle.lx_description.specs.declared.registers.RegKind.TheVariants as kind;

use crate::signals::{Signals, Wire, given, left};
use lx_description::{ConstDecl, ConstValue, Field, ManagerDecl, RegDecl, RegKind, SourceDecl};
use lx_parts::is_identifier;
use lx_text::{List, NoMemory};
use std::alloc::Global;

// ---- registers

// Whether a field has a name and a bit, and lies inside its register of so many bits.
fn is_field(size: u8, field: &Field) -> bool
    ensures { result ≡ kept.is_field size field.now }
{
    is_identifier(field.name.as_bytes())
        && field.size >= 1
        && field.offset as u16 + field.size as u16 <= size as u16
}

fn are_fields(size: u8, fields: &[Field]) -> bool
    ensures { result ≡ list_all (kept.is_field size) fields.now }
{
    for field in fields {
        if !is_field(size, field) {
            return false;
        }
    }
    true
}

// The most bits of a register of a kind.
fn most_size(kind: RegKind) -> u8
    ensures { result ≡ keeping.most_size kind }
{
    match kind {
        RegKind::Storage => 64,
        RegKind::Status => 64,
        RegKind::Raw => 32,
        RegKind::Pending => 0,
    }
}

// Whether a register has only options of its kind.
fn takes_options(register: &RegDecl) -> bool
    ensures { result ≡ keeping.takes_options register.now register.now.kind }
{
    match register.kind {
        RegKind::Storage => true,
        RegKind::Raw => !register.atomic && (!register.from_dev && register.fields.len() == 0),
        RegKind::Status => !register.atomic && !register.from_dev,
        RegKind::Pending => !register.atomic && !register.from_dev,
    }
}

// Adds the signals of fields that are given.
fn add_given(all: &mut List<Wire>, fields: &[Field]) -> Result<(), NoMemory>
    ensures { OnOk result (all.new ≡ all.old ++ map (λ (f : Field). wires.given f.size f.reset) fields.now) }
{
    for field in fields {
        all.push(given(field.size, field.reset))?;
    }
    Ok(())
}

// Adds the signals of fields that are left to the circuit.
fn add_left(all: &mut List<Wire>, fields: &[Field]) -> Result<(), NoMemory>
    ensures { OnOk result (all.new ≡ all.old ++ map (λ (f : Field). wires.left f.size f.reset) fields.now) }
{
    for field in fields {
        all.push(left(field.size, field.reset))?;
    }
    Ok(())
}

// Adds `we` and `dat_w` of a storage that the circuit may write.
fn add_device(all: &mut List<Wire>, register: &RegDecl) -> Result<(), NoMemory>
    ensures { OnOk result (all.new ≡ all.old ++ wires.device_wires register.now.size register.now.from_dev) }
{
    if register.from_dev {
        all.push(left(1, 0))?;
        all.push(left(register.size, 0))?;
    }
    Ok(())
}

// The signals of a storage.
fn storage_wires(alloc: Global, register: &RegDecl) -> Result<List<Wire>, NoMemory>
    ensures { IfOk result (λ all. all ≡ wires.register_wires register.now kind.Storage) }
{
    let mut all = List::new(alloc);
    all.push(given(register.size, register.reset))?;
    all.push(given(1, 0))?;
    add_device(&mut all, register)?;
    add_given(&mut all, register.fields.as_slice())?;
    Ok(all)
}

// The signals of a status.
fn status_wires(alloc: Global, register: &RegDecl) -> Result<List<Wire>, NoMemory>
    ensures { IfOk result (λ all. all ≡ wires.register_wires register.now kind.Status) }
{
    let mut all = List::new(alloc);
    all.push(left(register.size, register.reset))?;
    all.push(given(1, 0))?;
    add_left(&mut all, register.fields.as_slice())?;
    Ok(all)
}

// Whether the signals of a register look as its kind asks for.
fn has_signals(alloc: Global, signals: &Signals, register: &RegDecl) -> Result<bool, NoMemory>
    ensures { IfOk result (λ has. has ≡ kept.have_wires signals.now register.now.signals (wires.register_wires register.now register.now.kind)) }
{
    let own = register.signals.as_slice();
    match register.kind {
        RegKind::Storage => {
            let all = storage_wires(alloc, register)?;
            Ok(signals.have_wires(own, all.as_slice()))
        }
        RegKind::Status => {
            let all = status_wires(alloc, register)?;
            Ok(signals.have_wires(own, all.as_slice()))
        }
        RegKind::Raw => {
            let all = [
                given(register.size, 0),
                given(1, 0),
                left(register.size, 0),
                given(1, 0),
            ];
            Ok(signals.have_wires(own, &all))
        }
        RegKind::Pending => Ok(signals.have_wires(own, &[])),
    }
}

/// Whether a register is one.
pub(crate) fn is_register(
    alloc: Global,
    signals: &Signals,
    register: &RegDecl,
) -> Result<bool, NoMemory>
    ensures { IfOk result (λ is. is ≡ kept.is_register signals.now register.now) }
{
    if !is_identifier(register.name.as_bytes())
        || register.size < 1
        || register.size > most_size(register.kind)
    {
        return Ok(false);
    }
    if !takes_options(register) || !are_fields(register.size, register.fields.as_slice()) {
        return Ok(false);
    }
    has_signals(alloc, signals, register)
}

// ---- event managers

fn is_source(signals: &Signals, source: &SourceDecl) -> bool
    ensures { result ≡ kept.is_source signals.now source.now }
{
    is_identifier(source.name.as_bytes())
        && signals.have_wires(
            source.signals.as_slice(),
            &[left(1, 0), given(1, 0), given(1, 0), given(1, 0)],
        )
}

fn are_sources(signals: &Signals, sources: &[SourceDecl]) -> bool
    ensures { result ≡ list_all (kept.is_source signals.now) sources.now }
{
    for source in sources {
        if !is_source(signals, source) {
            return false;
        }
    }
    true
}

/// Whether an event manager is one.
pub(crate) fn is_manager(signals: &Signals, manager: &ManagerDecl) -> bool
    ensures { result ≡ kept.is_manager signals.now manager.now }
{
    let count = manager.sources.len();
    if count < 1 || count > 32 {
        return false;
    }
    are_sources(signals, manager.sources.as_slice())
        && (signals.has_wire(manager.irq, &given(1, 0))
            && (signals.has_wire(manager.enable, &left(count as u8, 0))
                && signals.is_generated(manager.enable)))
}

// ---- constants

fn is_plain(byte: u8) -> bool
    ensures { result ≡ keeping.is_plain byte }
{
    byte >= 32 && byte <= 126 && (byte != b'"' && (byte != b'\\' && byte != b','))
}

fn are_plain(bytes: &[u8]) -> bool
    ensures { result ≡ list_all keeping.is_plain bytes.now }
{
    for byte in bytes {
        if !is_plain(*byte) {
            return false;
        }
    }
    true
}

fn is_value(value: &ConstValue) -> bool
    ensures { result ≡ keeping.is_value value.now }
{
    match value {
        ConstValue::Number(number) => {
            *number >= -9_223_372_036_854_775_808 && *number < 18_446_744_073_709_551_616
        }
        ConstValue::Text(bytes) => are_plain(bytes.as_bytes()),
        ConstValue::Nothing => true,
    }
}

/// Whether a constant has a name, and a value that software can have.
pub(crate) fn is_constant(constant: &ConstDecl) -> bool
    ensures { result ≡ kept.is_constant constant.now }
{
    is_identifier(constant.name.as_bytes()) && is_value(&constant.value)
}

/// Whether all these are.
pub(crate) fn are_constants(constants: &[ConstDecl]) -> bool
    ensures { result ≡ list_all kept.is_constant constants.now }
{
    for constant in constants {
        if !is_constant(constant) {
            return false;
        }
    }
    true
}
