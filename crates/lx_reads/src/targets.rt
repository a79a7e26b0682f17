//! The signals that targets name, and what their indices read.

ghost use Rattle.std.specs.Prelude.{◌<◌, ◌≤◌, length, OnOk, IsTrue};
ghost use Rattle.lx_fhdl.specs.Below.{all_targets_below};
ghost use Rattle.lx_fhdl.specs.Designs.{target};
ghost use Rattle.lx_fhdl.specs.Stmts.{targets_at};
ghost use Rattle.lx_reads.specs.Net.{IsNet};
ghost use Rattle.lx_reads.specs.Targets.{AddsTarget, AddsTargets};

use crate::net::Net;
use lx_fhdl::{Design, Target, TargetId};
use lx_text::{List, NoMemory};

/// What an assignment has: the signals of its target, and the numbers that it reads.
#[derive(Drop)]
pub(crate) struct Parts {
    pub(crate) signals: List<usize>,
    pub(crate) reads: List<usize>,
}

// Adds the signals of a target, and its indices.
#[cycle(targets)]
pub(crate) fn add_target(
    design: &Design,
    net: &Net,
    id: TargetId,
    parts: &mut Parts,
) -> Result<(), NoMemory>
    requires net { IsNet design.now net.now }
    requires place { id.place < length design.now.targets }
    ensures { OnOk result (AddsTarget design.now net.now parts.old parts.new (target design.now id.place)) }
{
    match design.targets.get(id) {
        Target::Whole(signal) => parts.signals.push(signal.0),
        Target::Part { signal, .. } => parts.signals.push(signal.0),
        Target::Cat(items) => add_targets(design, net, items.as_slice(), id.place, parts),
        Target::Pick { items, index } => {
            parts.reads.push(design.signals.len() + index.place)?;
            add_targets(design, net, items.as_slice(), id.place, parts)
        }
    }
}

// Adds those of several targets below the bound.
#[cycle(targets)]
fn add_targets(
    design: &Design,
    net: &Net,
    ids: &[TargetId],
    bound: usize,
    parts: &mut Parts,
) -> Result<(), NoMemory>
    requires net { IsNet design.now net.now }
    requires below { IsTrue (all_targets_below bound ids.now) }
    requires bound { bound ≤ length design.now.targets }
    ensures { OnOk result (AddsTargets design.now net.now parts.old parts.new (targets_at (target design.now) ids.now)) }
{
    for id in ids {
        add_target(design, net, *id, parts)?;
    }
    Ok(())
}
