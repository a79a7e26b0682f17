//! Registers and constants while they are gathered, bank by bank.

ghost use Rattle.std.specs.Prelude.{◌≡◌, ◌+◌, ◌*◌, ◌≤◌, ◌++◌, ◌∷◌, [], length, IfOk, OnOk};
ghost use Rattle.lx_csr.specs.Collected.{declared, enable_register, event_register, event_registers, part_registers, pending_register, source_fields, source_signals, status_register};
ghost use Rattle.lx_csr.specs.Gathered.{HasRoom, IsSized, with_bank, with_part, with_registers};

use crate::names::{bare, joined};
use crate::registers::{Bank, Register};
use crate::words::{word_count, words_at};
use lx_description::{
    ConstDecl, ConstValue, Field, ManagerDecl, Part, RegDecl, RegKind, SourceDecl,
};
use lx_fhdl::{BankWish, SigId};
use lx_num::{Shape, wrap};
use lx_text::{List, NoMemory, Word};
use std::alloc::Global;
use std::mem;

/// What was gathered so far.
#[derive(Drop)]
pub(crate) struct Gathered {
    /// The banks that are whole.
    pub banks: List<Bank>,
    /// The registers of the peripheral that is at hand.
    pub registers: List<Register>,
    /// The address behind them.
    pub next: u32,
    /// The constants of all peripherals.
    pub constants: List<ConstDecl>,
}

impl Gathered {
    /// Nothing.
    pub fn new(alloc: Global) -> Gathered
        ensures { result ≡ record { banks = []; registers = []; next = 0; constants = [] } }
    {
        Gathered {
            banks: List::new(alloc),
            registers: List::new(alloc),
            next: 0,
            constants: List::new(alloc),
        }
    }
}

fn copied_field(alloc: Global, field: &Field) -> Result<Field, NoMemory>
    ensures { IfOk result (λ copied. copied ≡ field.now) }
{
    Ok(Field {
        name: field.name.copied(alloc)?,
        offset: field.offset,
        size: field.size,
        reset: field.reset,
        line: field.line,
    })
}

pub(crate) fn copied_fields(alloc: Global, fields: &[Field]) -> Result<List<Field>, NoMemory>
    ensures { IfOk result (λ copied. copied ≡ fields.now) }
{
    let mut copied = List::new(alloc);
    for field in fields {
        copied.push(copied_field(alloc, field)?)?;
    }
    Ok(copied)
}

pub(crate) fn copied_signals(alloc: Global, signals: &[SigId]) -> Result<List<SigId>, NoMemory>
    ensures { IfOk result (λ copied. copied ≡ signals.now) }
{
    let mut copied = List::new(alloc);
    for signal in signals {
        copied.push(*signal)?;
    }
    Ok(copied)
}

fn copied_value(alloc: Global, value: &ConstValue) -> Result<ConstValue, NoMemory>
    ensures { IfOk result (λ copied. copied ≡ value.now) }
{
    match value {
        ConstValue::Number(number) => Ok(ConstValue::Number(*number)),
        ConstValue::Text(text) => Ok(ConstValue::Text(text.copied(alloc)?)),
        ConstValue::Nothing => Ok(ConstValue::Nothing),
    }
}

/// A constant under another name.
pub(crate) fn renamed(
    alloc: Global,
    name: Word,
    constant: &ConstDecl,
) -> Result<ConstDecl, NoMemory>
    ensures { IfOk result (λ copied. copied ≡ record constant.now { name = name }) }
{
    Ok(ConstDecl {
        name,
        value: copied_value(alloc, &constant.value)?,
        line: constant.line,
    })
}

// ---- registers without a place

// A declared register under its full name.
fn declared(alloc: Global, name: Word, register: &RegDecl) -> Result<Register, NoMemory>
    requires some { 1 ≤ register.now.size }
    requires most { register.now.size ≤ 64 }
    ensures { IfOk result (λ made. made ≡ declared name register.now) }
{
    let shape = Shape {
        bits: register.size,
        signed: false,
    };
    Ok(Register {
        name,
        bank: 0,
        kind: register.kind,
        size: register.size,
        reset: wrap(register.reset, shape),
        atomic: register.atomic,
        from_dev: register.from_dev,
        fields: copied_fields(alloc, register.fields.as_slice())?,
        words: List::new(alloc),
        signals: copied_signals(alloc, register.signals.as_slice())?,
        line: register.line,
    })
}

// A field for each source.
fn source_fields(alloc: Global, sources: &[SourceDecl]) -> Result<List<Field>, NoMemory>
    requires { length sources.now ≤ 32 }
    ensures { IfOk result (λ fields. fields ≡ source_fields 0 sources.now) }
{
    let mut fields = List::new(alloc);
    for (i, source) in sources.iter().enumerate() {
        fields.push(Field {
            name: source.name.copied(alloc)?,
            offset: i as u8,
            size: 1,
            reset: 0,
            line: 0,
        })?;
    }
    Ok(fields)
}

// Adds signal k of each source.
fn push_signals(signals: &mut List<SigId>, sources: &[SourceDecl], k: usize) -> Result<(), NoMemory>
    ensures { OnOk result (signals.new ≡ signals.old ++ source_signals k sources.now) }
{
    for source in sources {
        if let Some(signal) = source.signals.get(k) {
            signals.push(*signal)?;
        }
    }
    Ok(())
}

// A register of an event manager.
fn event_register(
    alloc: Global,
    name: Word,
    kind: RegKind,
    manager: &ManagerDecl,
    signals: List<SigId>,
) -> Result<Register, NoMemory>
    requires { length manager.now.sources ≤ 32 }
    ensures { IfOk result (λ made. made ≡ event_register name kind manager.now signals) }
{
    let sources = manager.sources.as_slice();
    Ok(Register {
        name,
        bank: 0,
        kind,
        size: sources.len() as u8,
        reset: 0,
        atomic: false,
        from_dev: false,
        fields: source_fields(alloc, sources)?,
        words: List::new(alloc),
        signals,
        line: manager.line,
    })
}

fn status_register(alloc: Global, name: &[u8], manager: &ManagerDecl) -> Result<Register, NoMemory>
    requires { length manager.now.sources ≤ 32 }
    ensures { IfOk result (λ made. made ≡ status_register name.now manager.now) }
{
    let mut signals = List::new(alloc);
    push_signals(&mut signals, manager.sources.as_slice(), 1)?;
    let name = joined(alloc, name, b"status")?;
    event_register(alloc, name, RegKind::Status, manager, signals)
}

fn pending_register(alloc: Global, name: &[u8], manager: &ManagerDecl) -> Result<Register, NoMemory>
    requires { length manager.now.sources ≤ 32 }
    ensures { IfOk result (λ made. made ≡ pending_register name.now manager.now) }
{
    let mut signals = List::new(alloc);
    push_signals(&mut signals, manager.sources.as_slice(), 2)?;
    push_signals(&mut signals, manager.sources.as_slice(), 3)?;
    let name = joined(alloc, name, b"pending")?;
    event_register(alloc, name, RegKind::Pending, manager, signals)
}

fn enable_register(alloc: Global, name: &[u8], manager: &ManagerDecl) -> Result<Register, NoMemory>
    requires { length manager.now.sources ≤ 32 }
    ensures { IfOk result (λ made. made ≡ enable_register name.now manager.now) }
{
    let signals = List::of_one(alloc, manager.enable)?;
    let name = joined(alloc, name, b"enable")?;
    event_register(alloc, name, RegKind::Storage, manager, signals)
}

// ---- what is gathered

// Puts a register behind those of its bank.
fn add_register(gathered: &mut Gathered, alloc: Global, register: Register) -> Result<(), NoMemory>
    requires { HasRoom gathered.old (register ∷ []) }
    ensures { OnOk result (gathered.new ≡ with_registers gathered.old (register ∷ [])) }
{
    let addr = gathered.next;
    let mut placed = register;
    placed.bank = gathered.banks.len() as u32;
    placed.words = words_at(alloc, placed.size, addr)?;
    gathered.next = addr + 4 * word_count(placed.size);
    gathered.registers.push(placed)?;
    Ok(())
}

/// Adds the registers of an event manager with this full name.
pub(crate) fn add_events(
    gathered: &mut Gathered,
    alloc: Global,
    name: &[u8],
    manager: &ManagerDecl,
) -> Result<(), NoMemory>
    requires few { length manager.now.sources ≤ 32 }
    requires room { HasRoom gathered.old (event_registers name.now manager.now) }
    ensures { OnOk result (gathered.new ≡ with_registers gathered.old (event_registers name.now manager.now)) }
{
    add_register(gathered, alloc, status_register(alloc, name, manager)?)?;
    add_register(gathered, alloc, pending_register(alloc, name, manager)?)?;
    add_register(gathered, alloc, enable_register(alloc, name, manager)?)
}

/// Adds what an attribute of a module with this full name declares itself.
pub(crate) fn add_part(
    gathered: &mut Gathered,
    alloc: Global,
    owner: &[u8],
    part: &Part,
) -> Result<(), NoMemory>
    requires kept { IsSized part.now }
    requires room { HasRoom gathered.old (part_registers owner.now part.now) }
    ensures { OnOk result (gathered.new ≡ with_part gathered.old owner.now part.now) }
{
    match part {
        Part::Reg(register) => {
            let name = joined(alloc, owner, bare(register.name.as_bytes()))?;
            let made = declared(alloc, name, register)?;
            add_register(gathered, alloc, made)
        }
        Part::Constant(constant) => {
            let name = joined(alloc, owner, bare(constant.name.as_bytes()))?;
            let made = renamed(alloc, name, constant)?;
            gathered.constants.push(made)
        }
        Part::Manager(name, manager) => {
            let name = joined(alloc, owner, name.as_bytes())?;
            add_events(gathered, alloc, name.as_bytes(), manager)
        }
        Part::Module(_) => Ok(()),
    }
}

// The peripheral is whole: where it has registers it is a bank.
pub(crate) fn end_bank(gathered: &mut Gathered, alloc: Global, name: &Word) -> Result<(), NoMemory>
    ensures { OnOk result (gathered.new ≡ with_bank gathered.old name.now) }
{
    let line = match gathered.registers.get(0) {
        Some(first) => first.line,
        None => return Ok(()),
    };
    let wish = BankWish {
        name: name.copied(alloc)?,
        words: gathered.next / 4,
        line,
    };
    let registers = mem::replace(&mut gathered.registers, List::new(alloc));
    gathered.next = 0;
    gathered.banks.push(Bank { wish, registers })?;
    Ok(())
}
