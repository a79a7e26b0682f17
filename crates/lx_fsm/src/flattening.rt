//! The statements of all FSMs stand in the design of a description.

ghost use Rattle.std.specs.Prelude.{◌≡◌, ◌++◌, ◌+◌, ◌<◌, [], length, slice_index_or, slice_set, IfOk, OnOk};
ghost use Rattle.lx_description.specs.Below.{fsm_below};
ghost use Rattle.lx_fhdl.specs.Drafts.{HaveDomains, ListsStand};
ghost use Rattle.lx_fhdl.specs.Keeping.{EachOf, Keeps};
ghost use Rattle.lx_fsm.specs.Flattened.{CanFlatten, Flattens, comb_place, sync_place, sys_number, with_starts};
ghost use Rattle.lx_fsm.specs.Laid.{AreNone, CanPut, HasStart, IsWithin, Puts, put_where, some_part, woven_ids, woven_parts};

use crate::growing::Growing;
use crate::lowering::{FsmLists, lower_fsm, start_of};
use lx_arena::Arena;
use lx_description::{Description, FsmDecl, FsmStmts};
use lx_fhdl::{Design, Domain, StmtId, SyncPart};
use lx_text::{List, NoMemory, Refusal};
use std::alloc::Global;

// ---- lists at numbers

// An empty list for each number up to `count`.
fn empty_lists(alloc: Global, count: usize) -> Result<List<List<StmtId>>, NoMemory>
    ensures long { IfOk result (λ lists. length lists ≡ count + 1) }
    ensures none { IfOk result (λ lists. AreNone lists) }
{
    let mut lists = List::of_one(alloc, List::new(alloc))?;
    for number in 0..count {
        lists.push(List::new(alloc))?;
    }
    Ok(lists)
}

fn append(into: &mut List<StmtId>, ids: &[StmtId]) -> Result<(), NoMemory>
    ensures { OnOk result (into.new ≡ into.old ++ ids.now) }
{
    for id in ids {
        into.push(*id)?;
    }
    Ok(())
}

fn copied(alloc: Global, ids: &[StmtId]) -> Result<List<StmtId>, NoMemory>
    ensures { IfOk result (λ list. list ≡ ids.now) }
{
    let mut list = List::new(alloc);
    append(&mut list, ids)?;
    Ok(list)
}

// Adds statements to those of a number.
fn put_at(
    alloc: Global,
    lists: &mut List<List<StmtId>>,
    number: usize,
    ids: &[StmtId],
) -> Result<(), NoMemory>
    requires { number < length lists.old }
    ensures { OnOk result (lists.new ≡ slice_set lists.old number (slice_index_or lists.old number [] ++ ids.now)) }
{
    let mut list = lists.replace(number, List::new(alloc));
    append(&mut list, ids)?;
    lists.replace(number, list);
    Ok(())
}

// Adds the lists of an FSM to those of its place, where it has one.
fn put_lists_at(
    alloc: Global,
    fsm: &FsmDecl,
    lists: &FsmLists,
    comb: &mut List<List<StmtId>>,
    sync: &mut List<List<StmtId>>,
) -> Result<(), NoMemory>
    requires comb { IsWithin (length comb.old) (comb_place fsm.now) }
    requires sync { IsWithin (length sync.old) (sync_place fsm.now) }
    ensures comb { OnOk result (comb.new ≡ put_where (comb_place fsm.now) lists.now.comb comb.old) }
    ensures sync { OnOk result (sync.new ≡ put_where (sync_place fsm.now) lists.now.sync sync.old) }
{
    match fsm.place {
        Some(place) => {
            put_at(alloc, comb, place.comb, lists.comb.as_slice())?;
            put_at(alloc, sync, place.sync, lists.sync.as_slice())
        }
        None => Ok(()),
    }
}

// Adds the lists of all FSMs to those of their places, or tells the first fault.
fn put_fsms(
    alloc: Global,
    fsms: &[FsmDecl],
    stmts: &FsmStmts,
    growing: &mut Growing,
    comb: &mut List<List<StmtId>>,
    sync: &mut List<List<StmtId>>,
) -> Result<(), Refusal>
    requires can { EachOf (CanPut growing.old stmts.now (length comb.old) (length sync.old)) fsms.now }
    requires comb { AreNone comb.old }
    requires sync { AreNone sync.old }
    ensures { Puts growing.old growing.new stmts.now fsms.now (length comb.old) (length sync.old) comb.new sync.new result }
{
    stmts.lower();
    for fsm in fsms {
        let lists = lower_fsm(alloc, fsm, stmts, growing)?;
        put_lists_at(alloc, fsm, &lists, comb, sync)?;
    }
    Ok(())
}

// Each FSM starts in its reset state.
fn set_starts(alloc: Global, fsms: &[FsmDecl], growing: &mut Growing)
    requires { EachOf (HasStart growing.old) fsms.now }
    ensures { growing.new ≡ record growing.old { signals = with_starts fsms.now growing.old.signals } }
{
    for fsm in fsms {
        let start = start_of(fsm);
        growing.set_reset(alloc, fsm.state, start as i128);
    }
}

// ---- lists among others

// Each list before the statement of its number.
fn woven(alloc: Global, lists: &[List<StmtId>], ids: &[StmtId]) -> Result<List<StmtId>, NoMemory>
    requires { length lists.now ≡ length ids.now + 1 }
    ensures { IfOk result (λ list. list ≡ woven_ids lists.now ids.now) }
{
    let mut list = List::new(alloc);
    for (number, id) in ids.iter().enumerate() {
        append(&mut list, lists[number].as_slice())?;
        list.push(*id)?;
    }
    append(&mut list, lists[ids.len()].as_slice())?;
    Ok(list)
}

// Adds a part of a domain, where there are statements.
fn put_part(
    alloc: Global,
    list: &mut List<SyncPart>,
    domain: usize,
    ids: &[StmtId],
) -> Result<(), NoMemory>
    ensures { OnOk result (list.new ≡ list.old ++ some_part domain ids.now) }
{
    if ids.is_empty() {
        return Ok(());
    }
    let stmts = copied(alloc, ids)?;
    list.push(SyncPart { domain, stmts })?;
    Ok(())
}

// Each list, as a part of the domain, before the part of its number.
fn woven_parts(
    alloc: Global,
    domain: usize,
    lists: &[List<StmtId>],
    parts: &[SyncPart],
) -> Result<List<SyncPart>, NoMemory>
    requires { length lists.now ≡ length parts.now + 1 }
    ensures { IfOk result (λ list. list ≡ woven_parts domain lists.now parts.now) }
{
    let mut list = List::new(alloc);
    for (number, part) in parts.iter().enumerate() {
        put_part(alloc, &mut list, domain, lists[number].as_slice())?;
        let stmts = copied(alloc, part.stmts.as_slice())?;
        list.push(SyncPart {
            domain: part.domain,
            stmts,
        })?;
    }
    put_part(alloc, &mut list, domain, lists[parts.len()].as_slice())?;
    Ok(list)
}

// The number of the domain `sys`, or that of all where there is none.
fn sys_number(domains: &[Domain]) -> usize
    ensures { result ≡ sys_number domains.now }
{
    for (number, domain) in domains.iter().enumerate() {
        if domain.name.is(b"sys") {
            return number;
        }
    }
    domains.len()
}

// The design with these lists among its statements.
fn laid(
    alloc: Global,
    growing: Growing,
    comb: &[List<StmtId>],
    sync: &[List<StmtId>],
) -> Result<Design, NoMemory>
    requires comb { length comb.now ≡ length growing.comb + 1 }
    requires sync { length sync.now ≡ length growing.sync + 1 }
    ensures is { IfOk result (λ d. d ≡ record growing { comb = woven_ids comb.now growing.comb; sync = woven_parts (sys_number growing.domains) sync.now growing.sync }) }
    ensures keeps { IfOk result (λ d. HaveDomains (length growing.domains) growing.ports → ListsStand d → Keeps d) }
{
    let design = growing.design();
    let sys = sys_number(design.domains.as_slice());
    let comb = woven(alloc, comb, design.comb.as_slice())?;
    let sync = woven_parts(alloc, sys, sync, design.sync.as_slice())?;
    Ok(growing.complete(comb, sync))
}

/// A description without its FSMs (`genlib.fsm`): the statements that each stands for are part of the design, at the place
/// where it was added, and its signal `state` starts in the reset state. The first fault of an FSM, in order of creation,
/// is told on the line of its call: `NoStates`, or `UnknownState` with the name.
pub fn without_fsms(alloc: Global, description: Description) -> Result<Description, Refusal>
    requires { CanFlatten description }
    ensures { Flattens description result }
{
    let Description {
        top,
        soc,
        design,
        modules,
        slaves,
        wishes,
        constants,
        fsm_stmts,
        fsms,
    } = description;
    let mut comb = empty_lists(alloc, design.comb.len())?;
    let mut sync = empty_lists(alloc, design.sync.len())?;
    let mut growing = Growing::of(design);
    put_fsms(
        alloc,
        fsms.as_slice(),
        &fsm_stmts,
        &mut growing,
        &mut comb,
        &mut sync,
    )?;
    set_starts(alloc, fsms.as_slice(), &mut growing);
    let design = laid(alloc, growing, comb.as_slice(), sync.as_slice())?;
    let no_stmts = Arena::new(alloc);
    let no_fsms = List::new(alloc);
    Ok(Description {
        top,
        soc,
        design,
        modules,
        slaves,
        wishes,
        constants,
        fsm_stmts: no_stmts,
        fsms: no_fsms,
    })
}
