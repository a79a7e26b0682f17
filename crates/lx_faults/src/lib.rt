//! The line that tells a fault of a description.
#![tactic(auto)]

ghost use Rattle.std.specs.Prelude.{◌≡◌, ◌++◌, ◌<◌, ◌^◌, IfOk, OnOk, drop, flat_map, codes};
ghost use Rattle.lx_text.specs.Limits.{limit_number};
ghost use Rattle.lx_faults.specs.FaultLine.{line_text, name_of, limit_name, values_text, blank_names, blank_name, blank_hex, blank_number, limit_text};

use lx_text::faults::greatest;
use lx_text::{Fault, Kind, LimitKind, List, MAX_BYTES, NoMemory, Text, Word};
use std::alloc::Global;

/// The line that tells a fault of the file: the file's name, the line, the kind and its values, and LF.
pub fn fault_line(alloc: Global, file: &[u8], fault: &Fault) -> Result<Text, NoMemory>
    ensures { IfOk result (λ text. text ≡ line_text file.now fault.now) }
{
    let mut text = Text::new(alloc);
    text.word(file)?;
    text.word(b":")?;
    text.count(fault.line as u128)?;
    text.word(b": ")?;
    text.word(kind_name(&fault.kind))?;
    put_values(&mut text, &fault.kind)?;
    text.word(b"\n")?;
    Ok(text)
}

// The name of a limit.
fn name_of_limit(limit: LimitKind) -> &'static [u8]
    ensures { result.now ≡ limit_name limit }
{
    match limit {
        LimitKind::Work => b"Work",
        LimitKind::Nodes => b"Nodes",
        LimitKind::Depth => b"Depth",
        LimitKind::Signals => b"Signals",
        LimitKind::Modules => b"Modules",
        LimitKind::Items => b"Items",
        LimitKind::States => b"States",
        LimitKind::Domains => b"Domains",
        LimitKind::Memories => b"Memories",
        LimitKind::MemoryWords => b"MemoryWords",
        LimitKind::Regions => b"Regions",
        LimitKind::Sources => b"Sources",
        LimitKind::Name => b"Name",
    }
}

// The name of a kind.
fn kind_name(kind: &Kind) -> &'static [u8]
    ensures { result.now ≡ name_of kind.now }
{
    match kind {
        Kind::NotYetBuilt => b"NotYetBuilt",
        Kind::BadByte(_) => b"BadByte",
        Kind::BadIndent => b"BadIndent",
        Kind::NumberRange => b"NumberRange",
        Kind::TooLong => b"TooLong",
        Kind::TooDeep => b"TooDeep",
        Kind::Syntax(_) => b"Syntax",
        Kind::NoTop => b"NoTop",
        Kind::WrongKind => b"WrongKind",
        Kind::WrongCount => b"WrongCount",
        Kind::DivZero => b"DivZero",
        Kind::BadSlice => b"BadSlice",
        Kind::BadWidth => b"BadWidth",
        Kind::SignedShift => b"SignedShift",
        Kind::BadKey => b"BadKey",
        Kind::NoStates => b"NoStates",
        Kind::TraceSyntax => b"TraceSyntax",
        Kind::TraceValue => b"TraceValue",
        Kind::UnknownName(_) => b"UnknownName",
        Kind::BadOption(_) => b"BadOption",
        Kind::UnknownState(_) => b"UnknownState",
        Kind::TopRegister(_) => b"TopRegister",
        Kind::NameTaken(_) => b"NameTaken",
        Kind::UnknownBank(_) => b"UnknownBank",
        Kind::UnknownEvent(_) => b"UnknownEvent",
        Kind::StorageDriven(_) => b"StorageDriven",
        Kind::MemoryClocks(_) => b"MemoryClocks",
        Kind::RegionRange(_) => b"RegionRange",
        Kind::WrongWindow(_) => b"WrongWindow",
        Kind::TraceName(_) => b"TraceName",
        Kind::UnknownAccessor(_) => b"UnknownAccessor",
        Kind::TooWide(_) => b"TooWide",
        Kind::Limit(_) => b"Limit",
        Kind::FieldOverlap(_, _) => b"FieldOverlap",
        Kind::RegionOverlap(_, _) => b"RegionOverlap",
        Kind::RegionMisaligned { .. } => b"RegionMisaligned",
        Kind::RegionExhausted { .. } => b"RegionExhausted",
        Kind::IrqRange(_, _) => b"IrqRange",
        Kind::BankRange(_, _) => b"BankRange",
        Kind::IrqTaken(_, _, _) => b"IrqTaken",
        Kind::BankTaken(_, _, _) => b"BankTaken",
        Kind::IrqExhausted(_) => b"IrqExhausted",
        Kind::BankExhausted(_) => b"BankExhausted",
        Kind::BankFull(_, _) => b"BankFull",
        Kind::TwoDrivers(_, _) => b"TwoDrivers",
        Kind::CombLoop(_) => b"CombLoop",
    }
}

// Appends the values of a kind, each behind one blank.
fn put_values(text: &mut Text, kind: &Kind) -> Result<(), NoMemory>
    ensures { OnOk result (text.new ≡ text.old ++ values_text kind.now) }
{
    match kind {
        Kind::NotYetBuilt
        | Kind::BadIndent
        | Kind::NumberRange
        | Kind::NoTop
        | Kind::WrongKind
        | Kind::WrongCount
        | Kind::DivZero
        | Kind::BadSlice
        | Kind::BadWidth
        | Kind::SignedShift
        | Kind::BadKey
        | Kind::NoStates
        | Kind::TraceSyntax
        | Kind::TraceValue => Ok(()),
        Kind::TooLong => put_number(text, MAX_BYTES),
        Kind::TooDeep => text.word(b" 64"),
        Kind::BadByte(number)
        | Kind::Syntax(number)
        | Kind::TooWide(number)
        | Kind::IrqExhausted(number)
        | Kind::BankExhausted(number) => put_number(text, *number as u64),
        Kind::UnknownName(name)
        | Kind::BadOption(name)
        | Kind::UnknownState(name)
        | Kind::TopRegister(name)
        | Kind::NameTaken(name)
        | Kind::UnknownBank(name)
        | Kind::UnknownEvent(name)
        | Kind::StorageDriven(name)
        | Kind::MemoryClocks(name)
        | Kind::RegionRange(name)
        | Kind::WrongWindow(name)
        | Kind::TraceName(name)
        | Kind::UnknownAccessor(name) => put_name(text, name),
        Kind::Limit(limit) => put_limit(text, *limit),
        Kind::FieldOverlap(earlier, later) | Kind::RegionOverlap(earlier, later) => {
            put_name(text, earlier)?;
            put_name(text, later)?;
            Ok(())
        }
        Kind::RegionMisaligned {
            name,
            origin,
            rounded,
        } => {
            put_name(text, name)?;
            put_hex(text, *origin)?;
            put_hex(text, *rounded)?;
            Ok(())
        }
        Kind::RegionExhausted {
            cached,
            size,
            free,
            wanted,
        } => {
            text.word(if *cached {
                b" cached".as_slice()
            } else {
                b" uncached".as_slice()
            })?;
            put_hex(text, *size)?;
            put_number(text, *free)?;
            put_number(text, *wanted)?;
            Ok(())
        }
        Kind::IrqRange(name, number)
        | Kind::BankRange(name, number)
        | Kind::BankFull(name, number)
        | Kind::TwoDrivers(name, number) => {
            put_name(text, name)?;
            put_number(text, *number as u64)?;
            Ok(())
        }
        Kind::IrqTaken(number, earlier, later) | Kind::BankTaken(number, earlier, later) => {
            put_number(text, *number as u64)?;
            put_name(text, earlier)?;
            put_name(text, later)?;
            Ok(())
        }
        Kind::CombLoop(names) => put_names(text, names),
    }
}

fn put_number(text: &mut Text, number: u64) -> Result<(), NoMemory>
    ensures { OnOk result (text.new ≡ text.old ++ blank_number number) }
{
    text.word(b" ")?;
    text.count(number as u128)?;
    Ok(())
}

fn put_hex(text: &mut Text, number: u64) -> Result<(), NoMemory>
    ensures { OnOk result (text.new ≡ text.old ++ blank_hex number) }
{
    text.word(b" ")?;
    text.hex(number, 8)?;
    Ok(())
}

fn put_name(text: &mut Text, name: &Word) -> Result<(), NoMemory>
    ensures { OnOk result (text.new ≡ text.old ++ blank_name name.now) }
{
    text.word(b" ")?;
    text.word(name.as_bytes())?;
    Ok(())
}

fn put_names(text: &mut Text, names: &List<Word>) -> Result<(), NoMemory>
    ensures { OnOk result (text.new ≡ text.old ++ blank_names names.now) }
{
    for name in names.as_slice() {
        put_name(text, name)?;
    }
    Ok(())
}

fn put_limit(text: &mut Text, limit: LimitKind) -> Result<(), NoMemory>
    ensures { OnOk result (text.new ≡ text.old ++ limit_text limit) }
{
    text.word(b" ")?;
    text.word(name_of_limit(limit))?;
    put_number(text, greatest(limit) as u64)?;
    Ok(())
}
