//! What drives the net of each signal of a lowered design.

ghost use Rattle.std.specs.Prelude.{◌≡◌, ◌<◌, ◌++◌, ◌&&◌, length, not, slice_get, Some, IsSome, IsTrue, IfOk, OnOk};
ghost use Rattle.lx_fhdl.specs.Below.{all_stmts_below};
ghost use Rattle.lx_fhdl.specs.Designs.{block, stmt, stmts_of, target};
ghost use Rattle.lx_fhdl.specs.Lowered.{ArePlain, IsPlain, is_for, is_plain_target};
ghost use Rattle.lx_emission.specs.Signals.{is_whole, single, whole_value};
ghost use Rattle.lx_drives.specs.Drives.{AllAreThere, AreClocked, AreClosed, AreFilled, AreIdle, HaveNoBlock, closed, first_inside, idle_drive, whole_of, with_clocked, with_comb, with_stmt};
ghost use Rattle.lx_sheet.specs.Drives.{AreDrives, IsPlainTarget, IsThere, drive_of};
ghost use Rattle.lx_sheet.specs.Marks.{AreMarks};

use crate::lowered::Lowered;
use lx_fhdl::{Branch, Design, ExprId, SigId, Signal, Stmt, StmtId, Target, TargetId};
use lx_sheet::Drive;
use lx_text::{List, NoMemory};
use std::alloc::Global;

/// The signal that a plain target changes.
fn signal_of_target(lowered: &Lowered, id: TargetId) -> SigId
    requires place { id.place < length lowered.now.targets }
    requires plain { IsPlainTarget (target lowered.now id.place) }
    ensures alone { IsTrue (is_plain_target result.0 (target lowered.now id.place)) }
    ensures there { result.0 < length lowered.now.signals }
{
    match lowered.design.targets.get(id) {
        Target::Whole(signal) => *signal,
        Target::Part { signal, .. } => *signal,
        Target::Cat(_) => unreachable!(),
        Target::Pick { .. } => unreachable!(),
    }
}

/// The first statement inside an `If`.
fn first_inside(branches: &[Branch], rest: &[StmtId]) -> StmtId
    requires { IsSome (first_inside branches.now rest.now) }
    ensures { first_inside branches.now rest.now ≡ Some result }
{
    match branches {
        [branch, ..] if !branch.body.is_empty() => *branch.body.at(0),
        _ => rest[0],
    }
}

/// The one signal that a plain statement assigns.
pub fn signal_of(lowered: &Lowered, id: StmtId) -> SigId
    requires place { id.place < length lowered.now.stmts }
    requires plain { IsPlain (stmt lowered.now id.place) }
    ensures alone { IsTrue (is_for result.0 (stmt lowered.now id.place)) }
    ensures there { result.0 < length lowered.now.signals }
{
    match lowered.design.stmts.get(id) {
        Stmt::Assign { target, .. } => signal_of_target(lowered, *target),
        Stmt::If { branches, rest, .. } => {
            signal_of(lowered, first_inside(branches.as_slice(), rest.as_slice()))
        }
        Stmt::Case { .. } => unreachable!(),
    }
}

/// Adds places of statements to a list.
fn append(list: &mut List<StmtId>, ids: &[StmtId]) -> Result<(), NoMemory>
    ensures { OnOk result (list.new ≡ list.old ++ ids.now) }
{
    for id in ids {
        list.push(*id)?;
    }
    Ok(())
}

/// The statements of the domain of number k, those of all its parts in their order.
pub fn domain_stmts(alloc: Global, design: &Design, k: usize) -> Result<List<StmtId>, NoMemory>
    ensures { IfOk result (λ list. list ≡ stmts_of k design.now.sync) }
{
    let mut list = List::new(alloc);
    for part in design.sync.as_slice() {
        if part.domain == k {
            append(&mut list, part.stmts.as_slice())?;
        }
    }
    Ok(list)
}

/// Whether a target is a whole signal, or all its bits.
fn is_whole(lowered: &Lowered, id: TargetId) -> bool
    requires place { id.place < length lowered.now.targets }
    ensures { result ≡ is_whole lowered.now (slice_get lowered.now.targets id.place) }
{
    match lowered.design.targets.get(id) {
        Target::Whole(_) => true,
        Target::Part { signal, low, len } => {
            *low == 0 && *len == lowered.design.signals.at(signal.0).shape.bits
        }
        Target::Cat(_) | Target::Pick { .. } => false,
    }
}

/// The right side of an assignment to a whole signal.
fn whole_value(lowered: &Lowered, id: StmtId) -> Option<ExprId>
    requires place { id.place < length lowered.now.stmts }
    ensures { result ≡ whole_value lowered.now (slice_get lowered.now.stmts id.place) }
{
    match lowered.design.stmts.get(id) {
        Stmt::Assign { target, value, .. } if is_whole(lowered, *target) => Some(*value),
        _ => None,
    }
}

/// The right side of a list that is one unconditional assignment to a whole signal.
fn single(lowered: &Lowered, ids: &[StmtId]) -> Option<ExprId>
    requires there { IsTrue (all_stmts_below (length lowered.now.stmts) ids.now) }
    ensures { result ≡ single lowered.now ids.now }
{
    match ids {
        [id] => whole_value(lowered, *id),
        _ => None,
    }
}

/// Adds a statement to a block of `always @(*)`.
fn add_comb(alloc: Global, drive: &mut Drive, id: StmtId) -> Result<(), NoMemory>
    ensures { OnOk result (drive_of drive.new ≡ with_comb id (drive_of drive.old)) }
{
    if let Drive::CombBlock(body) = drive {
        return body.push(id);
    }
    *drive = Drive::CombBlock(List::of_one(alloc, id)?);
    Ok(())
}

/// Adds a statement to a block at the rise of a domain's clock.
fn add_clocked(alloc: Global, drive: &mut Drive, domain: usize, id: StmtId) -> Result<(), NoMemory>
    ensures { OnOk result (drive_of drive.new ≡ with_clocked domain id (drive_of drive.old)) }
{
    if let Drive::Sync { domain: own, body } = drive
        && *own == domain
    {
        return body.push(id);
    }
    let body = List::of_one(alloc, id)?;
    *drive = Drive::Sync { domain, body };
    Ok(())
}

/// Adds a statement to the block of a signal; what drove it otherwise doesn't any more.
fn add(alloc: Global, drive: &mut Drive, clock: Option<usize>, id: StmtId) -> Result<(), NoMemory>
    ensures { OnOk result (drive_of drive.new ≡ with_stmt clock id (drive_of drive.old)) }
{
    match clock {
        None => add_comb(alloc, drive, id),
        Some(domain) => add_clocked(alloc, drive, domain, id),
    }
}

/// Drives the signals with statements of this list by their blocks.
fn fill(
    alloc: Global,
    lowered: &Lowered,
    clock: Option<usize>,
    ids: &[StmtId],
    drives: &mut [Drive],
) -> Result<(), NoMemory>
    requires there { IsTrue (all_stmts_below (length lowered.now.stmts) ids.now) }
    requires plain { ArePlain (block lowered.now ids.now) }
    requires long { length drives.old ≡ length lowered.now.signals }
    requires none { HaveNoBlock clock drives.old }
    ensures { OnOk result (AreFilled lowered.now clock ids.now drives.old drives.new) }
{
    for id in ids {
        let signal = signal_of(lowered, *id);
        add(alloc, &mut drives[signal.0], clock, *id)?;
    }
    Ok(())
}

/// Whether a port is an input: nothing else gives it.
fn is_input(is_port: bool, signal: &Signal) -> bool
    ensures { result ≡ (is_port && not signal.now.by_bus) }
{
    is_port && !signal.by_bus
}

/// How a net is driven that no statement drives.
fn idle_drive(is_input: bool) -> Drive
    ensures { drive_of result ≡ idle_drive is_input }
{
    if is_input {
        Drive::Input
    } else {
        Drive::Undriven
    }
}

/// How the nets are driven before any statement.
fn idle(alloc: Global, design: &Design, ports: &[bool]) -> Result<Vec<Drive>, NoMemory>
    requires { AreMarks design.now ports.now }
    ensures { IfOk result (λ drives. AreIdle design.now (length design.now.signals) drives.items) }
{
    let mut drives = Vec::new(alloc);
    for x in 0..design.signals.len() {
        let signal = design.signals.at(x);
        drives.push(idle_drive(is_input(ports[x], signal)))?;
    }
    Ok(drives)
}

/// Drives the signals with statements of a domain by their blocks; the first domain counts.
fn fill_domains(alloc: Global, lowered: &Lowered, drives: &mut [Drive]) -> Result<(), NoMemory>
    requires idle { AreClocked lowered.now (length lowered.now.domains) drives.old }
    ensures { OnOk result (AreClocked lowered.now 0 drives.new) }
{
    for k in (0..lowered.design.domains.len()).rev() {
        let stmts = domain_stmts(alloc, lowered.design, k)?;
        fill(alloc, lowered, Some(k), stmts.as_slice(), drives)?;
    }
    Ok(())
}

/// The right side of a block that is one unconditional assignment to a whole signal.
fn whole_of(lowered: &Lowered, drive: &Drive) -> Option<ExprId>
    requires there { IsThere lowered.now (drive_of drive.now) }
    ensures { result ≡ whole_of lowered.now (drive_of drive.now) }
{
    match drive {
        Drive::CombBlock(body) => single(lowered, body.as_slice()),
        Drive::Input | Drive::Undriven | Drive::CombAssign(_) | Drive::Sync { .. } => None,
    }
}

/// Writes a block that is one unconditional assignment to a whole signal as such.
fn close_one(lowered: &Lowered, drive: &mut Drive)
    requires there { IsThere lowered.now (drive_of drive.old) }
    ensures { drive_of drive.new ≡ closed lowered.now (drive_of drive.old) }
{
    if let Some(value) = whole_of(lowered, drive) {
        *drive = Drive::CombAssign(value);
    }
}

/// Writes the blocks that are one unconditional assignment to a whole signal as such.
fn close(lowered: &Lowered, drives: &mut [Drive])
    requires there { AllAreThere lowered.now drives.old }
    ensures { AreClosed lowered.now drives.old drives.new }
{
    for x in 0..drives.len() {
        close_one(lowered, &mut drives[x]);
    }
}

/// Drives all signals: by the domains' statements, and then by the combinatorial ones.
fn drive_all(alloc: Global, lowered: &Lowered, drives: &mut [Drive]) -> Result<(), NoMemory>
    requires idle { AreClocked lowered.now (length lowered.now.domains) drives.old }
    ensures { OnOk result (AreDrives lowered.now drives.new) }
{
    fill_domains(alloc, lowered, drives)?;
    fill(alloc, lowered, None, lowered.design.comb.as_slice(), drives)?;
    close(lowered, drives);
    Ok(())
}

/// How the net of each signal is driven, in time that is linear in the design.
pub fn drives(alloc: Global, lowered: &Lowered, ports: &[bool]) -> Result<List<Drive>, NoMemory>
    requires ports { AreMarks lowered.now ports.now }
    ensures { IfOk result (λ drives. AreDrives lowered.now drives) }
{
    let mut drives = idle(alloc, lowered.design, ports)?;
    drive_all(alloc, lowered, drives.as_mut_slice())?;
    Ok(List::from_vec(drives))
}
