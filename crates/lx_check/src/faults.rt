//! The first fault of a design's drivers and of its memories.

ghost use Rattle.std.specs.Prelude.{◌≡◌, ◌<◌, ◌||◌, length, map, IfOk, IfSome, IsTrue};
ghost use Rattle.std.specs.Option.{is_some, option_or};
ghost use Rattle.lx_fhdl.specs.Keeping.{Keeps};
ghost use Rattle.lx_reads.specs.Drivings.{drivings};
ghost use Rattle.lx_reads.specs.Net.{driving_of};
ghost use Rattle.lx_check.specs.Faults.{clock_driver, first_fault, first_of, memory_clocks, signal_name, storage_driven, two_drivers, writings};
ghost use Rattle.lx_check.specs.Marks.{AreMarks, AreReaders, are_below, memory_marked, storage_marked, two_marked};

use crate::marks::{Mark, marks};
use lx_fhdl::{Design, Port, Signal};
use lx_namer::base_name;
use lx_reads::net::Driven;
use lx_text::{Fault, Kind, List, NoMemory, Word};
use std::alloc::Global;

/// The base name of a signal.
pub fn signal_name(alloc: Global, design: &Design, x: usize) -> Result<Word, NoMemory>
    requires { x < length design.now.signals }
    ensures { IfOk result (λ name. name ≡ signal_name design.now x) }
{
    base_name(alloc, design.signals.at(x).path.as_slice())
}

// Whether a signal is given, or the dat_r of a port.
fn is_output(signal: &Signal, reader: Option<Port>) -> bool
    ensures { result ≡ (signal.now.by_bus || is_some reader) }
{
    signal.by_bus || reader.is_some()
}

// The fault of an output that a statement of the description drives.
fn storage_fault(
    alloc: Global,
    design: &Design,
    x: usize,
    is_output: bool,
    mark: Mark,
) -> Result<Option<Fault>, NoMemory>
    requires { x < length design.now.signals }
    ensures { IfOk result (λ fault. fault ≡ storage_marked design.now x is_output mark) }
{
    match mark.described {
        Some(one) if is_output => Ok(Some(Fault {
            line: one.line,
            kind: Kind::StorageDriven(signal_name(alloc, design, x)?),
        })),
        _ => Ok(None),
    }
}

// The fault of a signal with two drivers.
fn driver_fault(
    alloc: Global,
    design: &Design,
    x: usize,
    mark: Mark,
) -> Result<Option<Fault>, NoMemory>
    requires { x < length design.now.signals }
    ensures { IfOk result (λ fault. fault ≡ two_marked design.now x mark) }
{
    match (mark.first, mark.second) {
        (Some(first), Some(second)) => Ok(Some(Fault {
            line: second.line,
            kind: Kind::TwoDrivers(signal_name(alloc, design, x)?, first.line),
        })),
        _ => Ok(None),
    }
}

// The fault of a memory that two domains write.
fn memory_fault(
    alloc: Global,
    design: &Design,
    m: usize,
    mark: Mark,
) -> Result<Option<Fault>, NoMemory>
    requires { m < length design.now.memories }
    ensures { IfOk result (λ fault. fault ≡ memory_marked design.now m mark) }
{
    if mark.second.is_none() {
        return Ok(None);
    }
    let memory = design.memories.at(m);
    Ok(Some(Fault {
        line: memory.line,
        kind: Kind::MemoryClocks(base_name(alloc, memory.path.as_slice())?),
    }))
}

// The first fault of an output that is driven.
fn first_storage(
    alloc: Global,
    design: &Design,
    marks: &[Mark],
    readers: &[Option<Port>],
) -> Result<Option<Fault>, NoMemory>
    requires marks { AreMarks (length design.now.signals) (drivings design.now) marks.now }
    requires readers { AreReaders (length design.now.signals) design.now.ports readers.now }
    ensures { IfOk result (λ fault. fault ≡ first_of (storage_driven design.now) (length design.now.signals)) }
{
    for x in 0..design.signals.len() {
        let is_output = is_output(design.signals.at(x), readers[x]);
        let fault = storage_fault(alloc, design, x, is_output, marks[x])?;
        if fault.is_some() {
            return Ok(fault);
        }
    }
    Ok(None)
}

// The first fault of a signal with two drivers.
fn first_drivers(alloc: Global, design: &Design, marks: &[Mark]) -> Result<Option<Fault>, NoMemory>
    requires { AreMarks (length design.now.signals) (drivings design.now) marks.now }
    ensures { IfOk result (λ fault. fault ≡ first_of (two_drivers design.now) (length design.now.signals)) }
{
    for x in 0..design.signals.len() {
        let fault = driver_fault(alloc, design, x, marks[x])?;
        if fault.is_some() {
            return Ok(fault);
        }
    }
    Ok(None)
}

// The number of a domain as a driver.
fn clock_driver(domain: Option<usize>) -> usize
    requires { IfSome domain (λ k. k < 16) }
    ensures { result ≡ clock_driver domain }
{
    match domain {
        Some(k) => k + 1,
        None => 0,
    }
}

// What the ports write.
fn writings(alloc: Global, design: &Design) -> Result<List<Driven>, NoMemory>
    requires { Keeps design.now }
    ensures same { IfOk result (λ list. map driving_of list ≡ writings design.now.ports) }
    ensures below { IfOk result (λ list. IsTrue (are_below (length design.now.memories) list)) }
{
    let mut list = List::new(alloc);
    for port in design.ports.as_slice() {
        if port.we.is_some() {
            list.push(Driven {
                signal: port.memory,
                driver: clock_driver(port.domain),
                line: 0,
                node: 0,
            })?;
        }
    }
    Ok(list)
}

// The marks of the memories, of which ports are the drivers.
fn clock_marks(alloc: Global, design: &Design) -> Result<Vec<Mark>, NoMemory>
    requires { Keeps design.now }
    ensures { IfOk result (λ marks. AreMarks (length design.now.memories) (writings design.now.ports) marks.items) }
{
    let writings = writings(alloc, design)?;
    let marks = marks(alloc, design.memories.len(), writings.as_slice())?;
    Ok(marks)
}

// The first fault of a memory that two domains write.
fn first_clocks(alloc: Global, design: &Design) -> Result<Option<Fault>, NoMemory>
    requires { Keeps design.now }
    ensures { IfOk result (λ fault. fault ≡ first_of (memory_clocks design.now) (length design.now.memories)) }
{
    let marks = clock_marks(alloc, design)?;
    let marks = marks.as_slice();
    for m in 0..design.memories.len() {
        let fault = memory_fault(alloc, design, m, marks[m])?;
        if fault.is_some() {
            return Ok(fault);
        }
    }
    Ok(None)
}

// The fault that was found, or else the first of a signal with two drivers.
fn or_drivers(
    alloc: Global,
    design: &Design,
    marks: &[Mark],
    found: Option<Fault>,
) -> Result<Option<Fault>, NoMemory>
    requires { AreMarks (length design.now.signals) (drivings design.now) marks.now }
    ensures { IfOk result (λ fault. fault ≡ option_or found (first_of (two_drivers design.now) (length design.now.signals))) }
{
    match found {
        Some(fault) => Ok(Some(fault)),
        None => first_drivers(alloc, design, marks),
    }
}

// The fault that was found, or else the first of a memory that two domains write.
fn or_clocks(
    alloc: Global,
    design: &Design,
    found: Option<Fault>,
) -> Result<Option<Fault>, NoMemory>
    requires { Keeps design.now }
    ensures { IfOk result (λ fault. fault ≡ option_or found (first_of (memory_clocks design.now) (length design.now.memories))) }
{
    match found {
        Some(fault) => Ok(Some(fault)),
        None => first_clocks(alloc, design),
    }
}

/// The first fault of the drivers and of the memories, from the marks of all signals and the ports that read them.
pub fn first_fault(
    alloc: Global,
    design: &Design,
    marks: &[Mark],
    readers: &[Option<Port>],
) -> Result<Option<Fault>, NoMemory>
    requires keeps { Keeps design.now }
    requires marks { AreMarks (length design.now.signals) (drivings design.now) marks.now }
    requires readers { AreReaders (length design.now.signals) design.now.ports readers.now }
    ensures { IfOk result (λ fault. fault ≡ first_fault design.now) }
{
    let storage = first_storage(alloc, design, marks, readers)?;
    let drivers = or_drivers(alloc, design, marks, storage)?;
    let clocks = or_clocks(alloc, design, drivers)?;
    Ok(clocks)
}
