//! Statements under a condition: one for each signal, of the statements that it has where the condition holds and where
//! it fails.

ghost use Rattle.std.specs.Prelude.{◌≡◌, ◌∷◌, ◌<◌, [], length, IfOk, IsTrue, OnOk};
ghost use Rattle.lx_fhdl.specs.Designs.{term};
ghost use Rattle.lx_plain.specs.Owned.{AreGrouped, AreOwned, GroupStands, HasPlace, OwnsAdded, PutGroup, PutUnder, all_signals, with_stmt};

use crate::owned::{Own, put_own};
use crate::plain::PlainDraft;
use lx_fhdl::{Branch, ExprId, SigId, Stmt, StmtId};
use lx_text::{List, NoMemory};
use std::alloc::Global;

/// The statements of a signal where a condition holds, and where it fails.
#[derive(Drop)]
pub struct Group {
    pub signal: SigId,
    pub then_: List<StmtId>,
    pub else_: List<StmtId>,
}

/// The place of a signal's group, which is made where the signal has none. A slot that was never written, or that other
/// groups left, doesn't lead to a group of its signal.
#[tactic(auto, using(crate::proofs::Grouping::place_found, crate::proofs::Grouping::place_made))]
fn group_of(
    alloc: Global,
    slots: &mut Vec<usize>,
    groups: &mut Vec<Group>,
    x: SigId,
) -> Result<usize, NoMemory>
    requires { x.0 < length slots.old.items }
    ensures ok { IfOk result (λ at. HasPlace x.0 slots.old.items slots.new.items groups.old.items groups.new.items at) }
    ensures long { length slots.new.items ≡ length slots.old.items }
{
    let at = slots[x.0];
    if at < groups.len() && groups[at].signal.0 == x.0 {
        return Ok(at);
    }
    let place = groups.len();
    groups.push(Group {
        signal: x,
        then_: List::new(alloc),
        else_: List::new(alloc),
    })?;
    slots[x.0] = place;
    Ok(place)
}

/// Adds a statement to one side of a group.
fn add_to(group: &mut Group, stmt: StmtId, holds: bool) -> Result<(), NoMemory>
    ensures { OnOk result (group.new ≡ with_stmt group.old stmt holds) }
{
    if holds {
        group.then_.push(stmt)?;
    } else {
        group.else_.push(stmt)?;
    }
    Ok(())
}

/// Adds a statement to the group of its signal.
fn add_own(
    alloc: Global,
    slots: &mut Vec<usize>,
    groups: &mut Vec<Group>,
    own: Own,
    holds: bool,
) -> Result<(), NoMemory>
    requires { own.signal.0 < length slots.old.items }
    ensures ok { OnOk result (OwnsAdded (own ∷ []) holds slots.old.items slots.new.items groups.old.items groups.new.items) }
    ensures long { length slots.new.items ≡ length slots.old.items }
{
    let at = group_of(alloc, slots, groups, own.signal)?;
    add_to(&mut groups[at], own.stmt, holds)?;
    Ok(())
}

/// Adds statements to the groups of their signals.
fn add_owns(
    alloc: Global,
    slots: &mut Vec<usize>,
    groups: &mut Vec<Group>,
    owns: &[Own],
    holds: bool,
) -> Result<(), NoMemory>
    requires { IsTrue (all_signals (length slots.old.items) owns.now) }
    ensures ok { OnOk result (OwnsAdded owns.now holds slots.old.items slots.new.items groups.old.items groups.new.items) }
    ensures long { length slots.new.items ≡ length slots.old.items }
{
    for own in owns {
        add_own(alloc, slots, groups, *own, holds)?;
    }
    Ok(())
}

/// The groups of statements where a condition holds, and where it fails.
pub(crate) fn grouped(
    alloc: Global,
    slots: &mut Vec<usize>,
    then_: &[Own],
    else_: &[Own],
) -> Result<Vec<Group>, NoMemory>
    requires then_ { IsTrue (all_signals (length slots.old.items) then_.now) }
    requires else_ { IsTrue (all_signals (length slots.old.items) else_.now) }
    ensures ok { IfOk result (λ groups. AreGrouped (length slots.old.items) then_.now else_.now groups.items) }
    ensures long { length slots.new.items ≡ length slots.old.items }
{
    let mut groups = Vec::new(alloc);
    add_owns(alloc, slots, &mut groups, then_, true)?;
    add_owns(alloc, slots, &mut groups, else_, false)?;
    Ok(groups)
}

/// Copies of the places of statements.
pub fn copied_ids(alloc: Global, ids: &[StmtId]) -> Result<List<StmtId>, NoMemory>
    ensures { IfOk result (λ list. list ≡ ids.now) }
{
    let mut list = List::new(alloc);
    for id in ids {
        list.push(*id)?;
    }
    Ok(list)
}

/// Adds the statements of a group under a condition from a line, where there are any.
fn put_group(
    alloc: Global,
    draft: &mut PlainDraft,
    cond: ExprId,
    group: &Group,
    line: u32,
    out: &mut List<Own>,
) -> Result<(), NoMemory>
    requires out { AreOwned draft.old out.old }
    requires cond { cond.place < length draft.old.exprs }
    requires group { GroupStands draft.old group.now }
    ensures { OnOk result (PutGroup draft.old draft.new out.old out.new (term draft.old cond.place) group.now line) }
{
    if group.then_.is_empty() && group.else_.is_empty() {
        return Ok(());
    }
    let body = copied_ids(alloc, group.then_.as_slice())?;
    let rest = copied_ids(alloc, group.else_.as_slice())?;
    let node = Stmt::If {
        branches: List::of_one(alloc, Branch { cond, body })?,
        rest,
        line,
    };
    put_own(draft, group.signal, node, out)?;
    Ok(())
}

/// Adds statements under a condition, and others where it fails: one `If` for each signal that has some, from a line.
pub fn put_under(
    alloc: Global,
    draft: &mut PlainDraft,
    cond: ExprId,
    then_: &[Own],
    else_: &[Own],
    line: u32,
    out: &mut List<Own>,
) -> Result<(), NoMemory>
    requires out { AreOwned draft.old out.old }
    requires cond { cond.place < length draft.old.exprs }
    requires then_ { AreOwned draft.old then_.now }
    requires else_ { AreOwned draft.old else_.now }
    ensures { OnOk result (PutUnder draft.old draft.new out.old out.new (term draft.old cond.place) then_.now else_.now line) }
{
    let groups = draft.grouped(alloc, then_, else_)?;
    for group in &groups {
        put_group(alloc, draft, cond, group, line, out)?;
    }
    Ok(())
}
