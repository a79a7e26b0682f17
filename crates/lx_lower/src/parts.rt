//! Statements of a design's domains, by signals.

ghost use Rattle.std.specs.Prelude.{◌≡◌, [], length, IfOk};
ghost use Rattle.lx_fhdl.specs.Designs.{stmts_of};
ghost use Rattle.lx_lower.specs.Lists.{ListPut, ListsPut, PartsPut, folded_lines_of, folded_of, lists_of, split_of};
ghost use Rattle.lx_flat.specs.Puts.{lines_for};
ghost use Rattle.lx_flat.specs.Ready.{IsReady};

use crate::lists::{OwnsIn, SignalLists, add_all, by_signal, fold_lists, folds, joined};
use lx_fhdl::{StmtId, SyncPart};
use lx_flat::{StmtsIn, flatten};
use lx_plain::plain::PlainDraft;
use lx_plain::source::Source;
use lx_text::{List, NoMemory};
use std::alloc::Global;

/// Adds the flat statements of some statements of the design, and gives those of each signal.
fn split(
    alloc: Global,
    draft: &mut PlainDraft,
    stmts: StmtsIn,
) -> Result<Vec<List<StmtId>>, NoMemory>
    requires { IsReady stmts.source.now draft.old [] }
    ensures { IfOk result (λ lists. ListsPut draft.old draft.new (length draft.new.signals) lists.items (split_of stmts.entry.source.now.design stmts.entry.ids.now) (lines_for stmts.entry.source.now.design stmts.entry.ids.now)) }
{
    let source = stmts.source;
    let owns = flatten(alloc, draft, stmts)?;
    let signals = source.design().signals.len();
    let owns = owns.as_slice();
    by_signal(alloc, OwnsIn { owns, signals })
}

/// Adds the lists of some statements of the design, one for each signal.
fn lower_list(
    alloc: Global,
    draft: &mut PlainDraft,
    stmts: StmtsIn,
) -> Result<List<StmtId>, NoMemory>
    requires { IsReady stmts.source.now draft.old [] }
    ensures { IfOk result (λ list. ListPut draft.old draft.new list (lists_of stmts.entry.source.now.design stmts.entry.ids.now) (lines_for stmts.entry.source.now.design stmts.entry.ids.now)) }
{
    let lists = split(alloc, draft, stmts)?;
    draft.keeps();
    joined(alloc, lists.as_slice())
}

/// Adds the lists of the combinatorial statements, folded where they read nothing.
pub(crate) fn lower_comb(
    alloc: Global,
    source: &Source,
    draft: &mut PlainDraft,
) -> Result<List<StmtId>, NoMemory>
    requires { IsReady source.now draft.old [] }
    ensures { IfOk result (λ list. ListPut draft.old draft.new list (folded_of source.now.design source.now.design.comb) (folded_lines_of source.now.design source.now.design.comb)) }
{
    let design = source.design();
    let bound = source.stmts();
    let stmts = StmtsIn {
        source: &*source,
        ids: design.comb.as_slice(),
        bound,
    };
    let lists = split(alloc, draft, stmts)?;
    let of = SignalLists {
        draft: draft.draft(),
        lists: lists.as_slice(),
    };
    let folds = folds(alloc, of)?;
    let lists = fold_lists(alloc, draft, lists.as_slice(), folds.as_slice())?;
    draft.keeps();
    joined(alloc, lists.as_slice())
}

/// The statements of a domain, of all its parts in their order.
fn domain_stmts(alloc: Global, parts: &[SyncPart], domain: usize) -> Result<List<StmtId>, NoMemory>
    ensures { IfOk result (λ ids. ids ≡ stmts_of domain parts.now) }
{
    let mut ids = List::new(alloc);
    for part in parts {
        if part.domain == domain {
            add_all(&mut ids, part.stmts.as_slice())?;
        }
    }
    Ok(ids)
}

/// Adds the lists of each domain's statements.
pub(crate) fn lower_sync(
    alloc: Global,
    source: &Source,
    draft: &mut PlainDraft,
) -> Result<List<SyncPart>, NoMemory>
    requires { IsReady source.now draft.old [] }
    ensures { IfOk result (λ parts. PartsPut source.now.design draft.old draft.new (length source.now.design.domains) parts) }
{
    let design = source.design();
    let bound = source.stmts();
    let mut parts = List::new(alloc);
    for domain in 0..design.domains.len() {
        let ids = domain_stmts(alloc, design.sync.as_slice(), domain)?;
        let own = StmtsIn {
            source: &*source,
            ids: ids.as_slice(),
            bound,
        };
        let stmts = lower_list(alloc, draft, own)?;
        parts.push(SyncPart { domain, stmts })?;
    }
    Ok(parts)
}
