//! All of a system's places.

ghost use Rattle.std.specs.Prelude.{◌≡◌, []};
ghost use Rattle.lx_regions.specs.Free.{FreeIsOne, EnoughIsFree};
ghost use Rattle.lx_alloc.specs.Places.{AreSized, fixed_faults, IsShortOfSlots};
ghost use Rattle.lx_alloc.specs.Numbers.{AreDistinct};
ghost use Rattle.lx_alloc.specs.Answer.{Answers, TellsExhausted};

use crate::least::{number_banks, number_irqs};
use crate::numbers::{check_all_banks, check_irqs};
use crate::origins::{check_fixed, place_regions};
use lx_fhdl::{Placement, Wishes};
use lx_text::Refusal;
use std::alloc::Global;

/// The free slots of a size are as many for every legal choice of the larger regions.
pub fn free_law()
    ensures { FreeIsOne }
{
    lx_regions::free_law()
}

/// Where a legal placement exists, no size has more wishes than free slots.
pub fn exhaustion_law()
    ensures { EnoughIsFree }
{
    lx_regions::exhaustion_law()
}

// The least legal placement, or the first fault.
fn placed(alloc: Global, w: &Wishes) -> Result<Placement, Refusal>
    requires sizes { AreSized w.now.regions }
    requires names { AreDistinct w.now.banks }
    ensures { Answers w.now result }
{
    check_fixed(alloc, w.regions.as_slice())?;
    let regions = place_regions(alloc, w.regions.as_slice())?;
    check_irqs(alloc, w.managers.as_slice(), w.irqs.as_slice())?;
    check_all_banks(alloc, w.fixes.as_slice(), w.banks.as_slice())?;
    let irqs = number_irqs(alloc, w.irqs.as_slice())?;
    let banks = number_banks(alloc, w.fixes.as_slice(), w.banks.as_slice())?;
    Ok(Placement {
        regions,
        banks,
        irqs,
    })
}

/// Where all parts of a system go: the least legal placement of the wishes, or the first fault.
///
/// Stated places are taken first. Regions without an origin are placed by their rounded sizes, the largest first and
/// ties in declared order, each at the lowest aligned origin of its window that is free. Banks and interrupts without
/// a number take, in declared order, the lowest free number of 0 to 31.
///
/// A region that needs a place and finds none is refused only where no legal placement exists.
pub fn place(alloc: Global, w: &Wishes) -> Result<Placement, Refusal>
    requires sizes { AreSized w.now.regions }
    requires names { AreDistinct w.now.banks }
    ensures answer { Answers w.now result }

    // A size that is short is told wherever the stated origins have no fault.
    ensures exhausted { fixed_faults w.now.regions ≡ [] → IsShortOfSlots w.now.regions → TellsExhausted w.now result }
{
    placed(alloc, w)
}
