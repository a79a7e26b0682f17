//! Assignments to the parts of targets.

ghost use Rattle.std.specs.Prelude.{◌≡◌, IfOk, OnOk};
ghost use Rattle.lx_plain.specs.Operands.{HasShape};
ghost use Rattle.lx_flat.specs.Puts.{PutItems, PutParts, PutTarget, lowered_at};
ghost use Rattle.lx_flat.specs.Ready.{IsReady, RestPut, item_test};

use crate::bits::target_bits;
use crate::sites::{ItemsIn, TargetIn, TargetsIn};
use lx_fhdl::Target;
use lx_plain::conds::{push_test, push_without_low};
use lx_plain::groups::put_under;
use lx_plain::operands::{Operand, Test};
use lx_plain::owned::{Own, put_assignment};
use lx_plain::plain::PlainDraft;
use lx_text::{List, NoMemory};
use std::alloc::Global;

/// What is asked of an index that picks an item: its number, or any from this on where the item is the last one.
fn item_test(number: usize, last: bool) -> Test
    ensures { result ≡ item_test number last }
{
    if last {
        Test::Last(number)
    } else {
        Test::Item(number)
    }
}

/// The number that the part after another one takes its bits from, where there is such a part.
fn push_rest(
    draft: &mut PlainDraft,
    value: Operand,
    part: TargetIn,
    last: bool,
) -> Result<Operand, NoMemory>
    requires { HasShape draft.old value }
    ensures { IfOk result (λ v. RestPut part.entry.source.now draft.old draft.new value v part.entry.id.place last) }
{
    if last {
        return Ok(value);
    }
    let low = target_bits(part);
    let id = push_without_low(draft, value, low)?;
    Ok(Operand {
        id,
        shape: value.shape,
    })
}

/// Adds the assignments of a number to the parts of a target, from a line.
#[cycle(assigns)]
pub(crate) fn put_assigns(
    alloc: Global,
    draft: &mut PlainDraft,
    target: TargetIn,
    value: Operand,
    line: u32,
    out: &mut List<Own>,
) -> Result<(), NoMemory>
    requires ready { IsReady target.source.now draft.old out.old }
    requires value { HasShape draft.old value }
    ensures { OnOk result (PutTarget target.entry.source.now draft.old draft.new out.old out.new target.entry.id.place value.id.place line) }
{
    let source = target.source;
    let bound = target.id.place;
    match source.target(target.id) {
        Target::Whole(x) => put_assignment(draft, *x, Target::Whole(*x), value.id, line, out),
        Target::Part { signal, low, len } => {
            let node = Target::Part {
                signal: *signal,
                low: *low,
                len: *len,
            };
            put_assignment(draft, *signal, node, value.id, line, out)
        }
        Target::Cat(parts) => {
            let ids = parts.as_slice();
            let parts = TargetsIn { source, ids, bound };
            put_parts(alloc, draft, parts, value, line, out)
        }
        Target::Pick { items, index } => {
            let ids = items.as_slice();
            let index = *index;
            let items = ItemsIn {
                source,
                ids,
                index,
                bound,
            };
            put_pick(alloc, draft, items, value, line, out)
        }
    }
}

/// Adds the assignments to parts side by side.
#[cycle(assigns)]
fn put_parts(
    alloc: Global,
    draft: &mut PlainDraft,
    parts: TargetsIn,
    value: Operand,
    line: u32,
    out: &mut List<Own>,
) -> Result<(), NoMemory>
    requires ready { IsReady parts.source.now draft.old out.old }
    requires value { HasShape draft.old value }
    ensures { OnOk result (PutParts parts.entry.source.now draft.old draft.new out.old out.new parts.entry.ids.now value.id.place line) }
{
    let source = parts.source;
    let ids = parts.ids;
    let mut value = value;
    for (number, part) in ids.iter().enumerate() {
        let part = TargetIn { source, id: *part };
        put_assigns(alloc, draft, part, value, line, out)?;
        let last = number + 1 == ids.len();
        value = push_rest(draft, value, part, last)?;
    }
    Ok(())
}

/// Adds the assignments to the item at an index: a lone item under no condition, and each of several under the condition
/// that the index picks it.
#[cycle(assigns)]
fn put_pick(
    alloc: Global,
    draft: &mut PlainDraft,
    items: ItemsIn,
    value: Operand,
    line: u32,
    out: &mut List<Own>,
) -> Result<(), NoMemory>
    requires ready { IsReady items.source.now draft.old out.old }
    requires value { HasShape draft.old value }
    ensures { OnOk result (PutItems items.entry.source.now draft.old draft.new out.old out.new items.entry.ids.now (lowered_at items.entry.source.now.design items.entry.index.place) value.id.place line) }
{
    let source = items.source;
    let ids = items.ids;
    if let [only] = ids {
        let only = TargetIn { source, id: *only };
        return put_assigns(alloc, draft, only, value, line, out);
    }
    let index = source.lowered(draft, items.index);
    for (number, item) in ids.iter().enumerate() {
        let item = TargetIn { source, id: *item };
        let mut own = List::new(alloc);
        put_assigns(alloc, draft, item, value, line, &mut own)?;
        let last = number + 1 == ids.len();
        let cond = push_test(draft, index, item_test(number, last))?;
        put_under(alloc, draft, cond, own.as_slice(), &[], line, out)?;
    }
    Ok(())
}
