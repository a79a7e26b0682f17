//! The conditions of arms: that an expression is a key, and that it is no key.

ghost use Rattle.std.specs.Ordering.{int_eq};
ghost use Rattle.std.specs.Prelude.{◌≡◌, ◌&&◌, [], length, if◌then◌else◌, IfOk, Some, None};
ghost use Rattle.lx_num.specs.Ints.{wrapped};
ghost use Rattle.lx_fhdl.specs.Designs.{shapes, term};
ghost use Rattle.lx_fhdl.specs.Nodes.{IsSmall};
ghost use Rattle.lx_lowering.specs.Flat.{and_none};
ghost use Rattle.lx_lowering.specs.Terms.{never};
ghost use Rattle.lx_flat.specs.Keys.{AreBits, AreFresh, NonePut, none_after, none_of};
ghost use Rattle.lx_plain.specs.Operands.{HasShape};
ghost use Rattle.lx_plain.specs.Plain.{TermPut};
ghost use Rattle.lx_plain.specs.Tests.{asked};
ghost use Rattle.lx_plain.specs.declared.operands.Test.TheVariants.{Key, NoKey};

use lx_fhdl::{Arm, ExprId};
use lx_num::{Shape, wrap};
use lx_plain::conds::{push_binary, push_never, push_test};
use lx_plain::operands::{Operand, Test};
use lx_plain::plain::PlainDraft;
use lx_tables::Op;
use lx_text::{List, NoMemory};
use std::alloc::Global;
use std::collections::BTreeSet;

/// Whether a key that stands first, or doesn't, is one of the values of a shape and stands first.
fn is_fresh(key: i128, shape: Shape, first: bool) -> bool
    requires { IsSmall shape }
    ensures { result ≡ (int_eq (wrapped shape key) key && first) }
{
    wrap(key, shape) == key && first
}

/// An expression, arms by whose keys it chooses, and for each arm whether its key is one of the values of the expression's
/// shape and stands in no arm before.
#[derive(Clone, Copy)]
pub(crate) struct Keyed<'a> {
    pub on: Operand,
    pub arms: &'a [Arm],
    pub fresh: &'a [bool],
    pub ghost are: { AreFresh on.shape arms.now (length arms.now) fresh.now },
}

/// For each arm, whether its key is one of the values of a shape and stands in no arm before.
pub(crate) fn fresh_keys(alloc: Global, arms: &[Arm], shape: Shape) -> Result<List<bool>, NoMemory>
    requires { IsSmall shape }
    ensures { IfOk result (λ fresh. AreFresh shape arms.now (length arms.now) fresh) }
{
    let mut seen = BTreeSet::new(alloc);
    let mut fresh = List::new(alloc);
    for arm in arms {
        let first = seen.insert(arm.key)?;
        let own = is_fresh(arm.key, shape, first);
        fresh.push(own)?;
    }
    Ok(fresh)
}

/// Adds the condition that an expression is a key, which it never is where the key isn't fresh.
pub(crate) fn push_key(
    draft: &mut PlainDraft,
    on: Operand,
    fresh: bool,
    key: i128,
) -> Result<ExprId, NoMemory>
    requires { HasShape draft.old on }
    ensures { IfOk result (λ id. TermPut draft.old draft.new id.place (if fresh then asked (shapes draft.old) (term draft.old on.id.place) (Key key) else never)) }
{
    if fresh {
        push_test(draft, on, Test::Key(key))
    } else {
        push_never(draft)
    }
}

/// Adds the condition that an expression is none of some keys, and not this one where it is fresh.
fn push_no_key(
    draft: &mut PlainDraft,
    none: Option<ExprId>,
    on: Operand,
    fresh: bool,
    key: i128,
) -> Result<Option<ExprId>, NoMemory>
    requires on { HasShape draft.old on }
    requires none { AreBits draft.old none }
    ensures { IfOk result (λ more. NonePut draft.old draft.new more (if fresh then and_none (none_of draft.old none) (asked (shapes draft.old) (term draft.old on.id.place) (NoKey key)) else none_of draft.old none)) }
{
    if !fresh {
        return Ok(none);
    }
    let other = push_test(draft, on, Test::NoKey(key))?;
    match none {
        Some(none) => {
            let both = push_binary(draft, Op::And, none, other)?;
            Ok(Some(both))
        }
        None => Ok(Some(other)),
    }
}

/// Adds the condition that an expression is no key of some arms, where it can be one.
pub(crate) fn push_no_keys(draft: &mut PlainDraft, keyed: Keyed) -> Result<Option<ExprId>, NoMemory>
    requires { HasShape draft.old keyed.on }
    ensures { IfOk result (λ none. NonePut draft.old draft.new none (none_after (shapes draft.old) (term draft.old keyed.entry.on.id.place) [] None keyed.entry.arms.now)) }
{
    let on = keyed.on;
    let arms = keyed.arms;
    let fresh = keyed.fresh;
    let mut none = None;
    for (number, arm) in arms.iter().enumerate() {
        none = push_no_key(draft, none, on, fresh[number], arm.key)?;
    }
    Ok(none)
}
