//! One list of statements for each signal.

ghost use Rattle.std.specs.Prelude.{◌≡◌, ◌++◌, ◌∷◌, ◌<◌, [], length, IfOk, OnOk, IsTrue};
ghost use Rattle.std.specs.List.{flat_map};
ghost use Rattle.lx_fhdl.specs.Designs.{block};
ghost use Rattle.lx_lower.specs.Fixed.{chosen, chosen_lines, constant_in};
ghost use Rattle.lx_plain.specs.Lines.{alone, lines};
ghost use Rattle.lx_lower.specs.Lists.{AreBySignal, AreFolds, AreForSignals, IsFor, ListsPut, OnePut, fold_lines, folded_lists};
ghost use Rattle.lx_plain.specs.Owned.{all_signals};

use crate::fold::{Folded, fold_of};
use crate::known::{Known, OwnBlock};
use lx_fhdl::{Draft, SigId, Stmt, StmtId, Target};
use lx_plain::conds::push_constant;
use lx_plain::groups::copied_ids;
use lx_plain::owned::Own;
use lx_plain::plain::PlainDraft;
use lx_text::{List, NoMemory};
use std::alloc::Global;

/// So many lists of nothing.
fn no_lists(alloc: Global, signals: usize) -> Result<Vec<List<StmtId>>, NoMemory>
    ensures { IfOk result (λ lists. AreBySignal signals [] lists.items) }
{
    let mut lists = Vec::new(alloc);
    for _signal in 0..signals {
        lists.push(List::new(alloc))?;
    }
    Ok(lists)
}

/// Statements for some of so many signals.
#[derive(Clone, Copy)]
pub(crate) struct OwnsIn<'a> {
    pub owns: &'a [Own],
    pub signals: usize,
    pub ghost there: { IsTrue (all_signals signals owns.now) },
}

/// For each of some signals its statements.
pub(crate) fn by_signal(alloc: Global, of: OwnsIn) -> Result<Vec<List<StmtId>>, NoMemory>
    ensures { IfOk result (λ lists. AreBySignal of.entry.signals of.entry.owns.now lists.items) }
{
    let mut lists = no_lists(alloc, of.signals)?;
    for own in of.owns {
        lists[own.signal.0].push(own.stmt)?;
    }
    Ok(lists)
}

/// Adds statements at the end of a list.
pub(crate) fn add_all(out: &mut List<StmtId>, ids: &[StmtId]) -> Result<(), NoMemory>
    ensures { OnOk result (out.new ≡ out.old ++ ids.now) }
{
    for id in ids {
        out.push(*id)?;
    }
    Ok(())
}

/// All lists, one after the other.
pub(crate) fn joined(alloc: Global, lists: &[List<StmtId>]) -> Result<List<StmtId>, NoMemory>
    ensures { IfOk result (λ list. list ≡ flat_map (λ ids. ids) lists.now) }
{
    let mut list = List::new(alloc);
    for ids in lists {
        add_all(&mut list, ids.as_slice())?;
    }
    Ok(list)
}

/// The lists of all signals of a draft, each for its signal alone.
#[derive(Clone, Copy)]
pub(crate) struct SignalLists<'a> {
    pub draft: &'a Draft,
    pub lists: &'a [List<StmtId>],
    pub ghost alone: { AreForSignals draft.now lists.now },
}

/// What each list gives its signal, where it reads nothing.
pub(crate) fn folds(alloc: Global, of: SignalLists) -> Result<List<Option<Folded>>, NoMemory>
    ensures { IfOk result (λ folds. AreFolds of.entry.draft.now of.entry.lists.now (length of.entry.draft.now.signals) folds) }
{
    let lists = of.lists;
    let known = Known::new(alloc, of.draft)?;
    let bound = known.stmts();
    let mut folds = List::new(alloc);
    for x in 0..lists.len() {
        let list = lists[x].as_slice();
        let stmts = OwnBlock {
            known: &known,
            ids: list,
            bound,
            signal: SigId(x),
        };
        let fold = fold_of(stmts);
        folds.push(fold)?;
    }
    Ok(folds)
}

/// The assignment of a number to a signal, from a line.
fn constant_list(
    alloc: Global,
    draft: &mut PlainDraft,
    x: SigId,
    number: i128,
    line: u32,
) -> Result<List<StmtId>, NoMemory>
    requires { x.0 < length draft.old.signals }
    ensures { IfOk result (λ list. OnePut draft.old draft.new x.0 list (constant_in draft.old x.0 number) (alone line ∷ [])) }
{
    let shape = draft.signal_shape(x);
    let value = push_constant(draft, number, shape)?;
    let target = draft.push_target(Target::Whole(x))?;
    let node = Stmt::Assign {
        target,
        value,
        line,
    };
    let stmt = draft.push_stmt(node)?;
    List::of_one(alloc, stmt)
}

/// Statements of a signal, or the assignment of a constant in their place.
fn fold_list(
    alloc: Global,
    draft: &mut PlainDraft,
    x: SigId,
    fold: Option<Folded>,
    ids: &[StmtId],
) -> Result<List<StmtId>, NoMemory>
    requires { IsFor draft.old x.0 ids.now }
    ensures { IfOk result (λ list. OnePut draft.old draft.new x.0 list (chosen draft.old x.0 fold (block draft.old ids.now)) (chosen_lines fold (lines draft.old x.0 ids.now))) }
{
    match fold {
        None => copied_ids(alloc, ids),
        Some(fold) => constant_list(alloc, draft, x, fold.value, fold.line),
    }
}

/// The lists of all signals, where those that read nothing are folded.
pub(crate) fn fold_lists(
    alloc: Global,
    draft: &mut PlainDraft,
    lists: &[List<StmtId>],
    folds: &[Option<Folded>],
) -> Result<Vec<List<StmtId>>, NoMemory>
    requires lists { AreForSignals draft.old lists.now }
    requires folds { AreFolds draft.old lists.now (length draft.old.signals) folds.now }
    ensures { IfOk result (λ more. ListsPut draft.old draft.new (length draft.old.signals) more.items (folded_lists draft.old lists.now) (fold_lines draft.old lists.now folds.now)) }
{
    let mut out = Vec::new(alloc);
    for x in 0..lists.len() {
        let list = lists[x].as_slice();
        let own = fold_list(alloc, draft, SigId(x), folds[x], list)?;
        out.push(own)?;
    }
    Ok(out)
}
