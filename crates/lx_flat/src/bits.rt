//! The bits of a design's targets.

ghost use Rattle.std.specs.Prelude.{◌≡◌};
ghost use Rattle.lx_circuit.specs.Statements.{target_bits, sum_bits, most_bits};
ghost use Rattle.lx_fhdl.specs.Designs as designs;
ghost use Rattle.lx_fhdl.specs.Stmts.{targets_at};

use crate::sites::{PartsIn, TargetIn, TargetsIn};
use lx_fhdl::Target;

/// The bits of a target; one with an index has those of its widest item.
#[cycle(bits)]
pub(crate) fn target_bits(target: TargetIn) -> u8
    ensures { result ≡ target_bits (designs.shapes target.entry.source.now.design) (designs.target target.entry.source.now.design target.entry.id.place) }
{
    let source = target.source;
    let bound = target.id.place;
    match source.target(target.id) {
        Target::Whole(x) => source.signal_bits(*x),
        Target::Part { len, .. } => *len,
        Target::Cat(parts) => sum_of_bits(PartsIn {
            source,
            ids: parts.as_slice(),
            bound,
        }),
        Target::Pick { items, .. } => most_of_bits(TargetsIn {
            source,
            ids: items.as_slice(),
            bound,
        }),
    }
}

/// The bits of all parts together.
#[cycle(bits)]
fn sum_of_bits(parts: PartsIn) -> u8
    ensures { result ≡ sum_bits (designs.shapes parts.entry.source.now.design) (targets_at (designs.target parts.entry.source.now.design) parts.entry.ids.now) }
{
    let source = parts.source;
    let mut bits = 0;
    for part in parts.ids {
        bits += target_bits(TargetIn { source, id: *part });
    }
    bits
}

/// The bits of the widest item.
#[cycle(bits)]
fn most_of_bits(items: TargetsIn) -> u8
    ensures { result ≡ most_bits (designs.shapes items.entry.source.now.design) (targets_at (designs.target items.entry.source.now.design) items.entry.ids.now) }
{
    let source = items.source;
    let mut bits = 0;
    for item in items.ids {
        bits = target_bits(TargetIn { source, id: *item }).max(bits);
    }
    bits
}
