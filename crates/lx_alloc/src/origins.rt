//! Regions: the faults of stated origins, and the least places.

ghost use Rattle.std.specs.Prelude.{◌≡◌, ◌≤◌, [], flat_map, length, IfOk, IsTrue, ◌↔◌, nat_le};
ghost use Rattle.std.specs.List.{list_all};
ghost use Rattle.lx_regions.specs.Rounded.{rounded};
ghost use Rattle.lx_regions.specs.Short.{IsShort};
ghost use Rattle.lx_text.specs.declared.faults.Refusal.{Refusal};
ghost use Rattle.lx_alloc.specs.Judged.{Judged, each_pair};
ghost use Rattle.lx_alloc.specs.Places.{place_faults, overlap_faults, overlaps, fixed_faults, spot_of, spots_of, region_of, regions_at, IsExhausted, AreSized, Places};

use lx_fhdl::{Region, RegionWish};
use lx_regions::{Place, Spot, fill, is_inside, rounded_size, wanted};
use lx_text::{Fault, Kind, List, NoMemory, Refusal};
use std::alloc::Global;

// The bytes of the address space.
const ADDRESSES: u64 = 0x1_0000_0000;

// The refusal that tells a fault.
pub fn refusal(line: u32, kind: Kind) -> Refusal
    ensures { result ≡ Refusal.Fault (record { line = line; kind = kind }) }
{
    Refusal::Fault(Fault { line, kind })
}

// A stated origin: past the address space, misaligned, or outside its window.
fn check_origin(alloc: Global, wish: &RegionWish) -> Result<(), Refusal>
    requires { wish.now.size ≤ 4294967296 }
    ensures { Judged (place_faults wish.now) result }
{
    let Some(origin) = wish.origin else {
        return Ok(());
    };
    let rounded = rounded_size(wish.size);
    if origin > ADDRESSES - rounded {
        let name = wish.name.copied(alloc)?;
        return Err(refusal(wish.line, Kind::RegionRange(name)));
    }
    if origin % rounded != 0 {
        let name = wish.name.copied(alloc)?;
        return Err(refusal(
            wish.line,
            Kind::RegionMisaligned {
                name,
                origin,
                rounded,
            },
        ));
    }
    if !is_inside(wish.cached, origin, rounded) {
        let name = wish.name.copied(alloc)?;
        return Err(refusal(wish.line, Kind::WrongWindow(name)));
    }
    Ok(())
}

// All stated origins, in declared order.
fn check_origins(alloc: Global, wishes: &[RegionWish]) -> Result<(), Refusal>
    requires { AreSized wishes.now }
    ensures { Judged (flat_map place_faults wishes.now) result }
{
    for wish in wishes {
        check_origin(alloc, wish)?;
    }
    Ok(())
}

// Whether two regions with stated origins share a byte.
fn overlap(later: &RegionWish, earlier: &RegionWish) -> bool
    requires late { later.now.size ≤ 4294967296 }
    requires early { earlier.now.size ≤ 4294967296 }
    ensures { result ≡ overlaps later.now.origin (rounded later.now.size) earlier.now.origin (rounded earlier.now.size) }
{
    match (later.origin, earlier.origin) {
        (Some(above), Some(below)) => {
            if above < below {
                below - above < rounded_size(later.size)
            } else {
                above - below < rounded_size(earlier.size)
            }
        }
        _ => false,
    }
}

// An earlier region that a region with a stated origin shares a byte with.
fn check_overlap(alloc: Global, later: &RegionWish, earlier: &RegionWish) -> Result<(), Refusal>
    requires late { later.now.size ≤ 4294967296 }
    requires early { earlier.now.size ≤ 4294967296 }
    ensures { Judged (overlap_faults later.now earlier.now) result }
{
    if overlap(later, earlier) {
        let first = earlier.name.copied(alloc)?;
        let second = later.name.copied(alloc)?;
        return Err(refusal(later.line, Kind::RegionOverlap(first, second)));
    }
    Ok(())
}

// The pairs of a region with those before it.
fn check_earlier(alloc: Global, later: &RegionWish, before: &[RegionWish]) -> Result<(), Refusal>
    requires late { later.now.size ≤ 4294967296 }
    requires early { AreSized before.now }
    ensures { Judged (flat_map (overlap_faults later.now) before.now) result }
{
    for earlier in before {
        check_overlap(alloc, later, earlier)?;
    }
    Ok(())
}

// All pairs, by the later region and then by the earlier.
fn check_overlaps(alloc: Global, wishes: &[RegionWish]) -> Result<(), Refusal>
    requires { AreSized wishes.now }
    ensures { Judged (each_pair overlap_faults [] wishes.now) result }
{
    for (i, wish) in wishes.iter().enumerate() {
        check_earlier(alloc, wish, &wishes[..i])?;
    }
    Ok(())
}

/// The faults of regions with stated origins: those of each, and then those of the pairs that share a byte.
pub fn check_fixed(alloc: Global, wishes: &[RegionWish]) -> Result<(), Refusal>
    requires { AreSized wishes.now }
    ensures { Judged (fixed_faults wishes.now) result }
{
    check_origins(alloc, wishes)?;
    check_overlaps(alloc, wishes)?;
    Ok(())
}

// A wish as a region of its rounded size.
fn spot_of(wish: &RegionWish) -> Spot
    requires { wish.now.size ≤ 4294967296 }
    ensures { result ≡ spot_of wish.now }
{
    let place = match wish.origin {
        Some(origin) => Place::Fixed(origin),
        None => Place::Open,
    };
    Spot {
        place,
        size: rounded_size(wish.size),
        cached: wish.cached,
    }
}

// All wishes as regions of their rounded sizes.
fn spots_of(alloc: Global, wishes: &[RegionWish]) -> Result<Vec<Spot>, NoMemory>
    requires { AreSized wishes.now }
    ensures { IfOk result (λ spots. spots.items ≡ spots_of wishes.now) }
{
    let mut spots = Vec::new(alloc);
    for wish in wishes {
        spots.push(spot_of(wish))?;
    }
    Ok(spots)
}

// A region by its wish and its place.
fn region_of(alloc: Global, wish: &RegionWish, spot: &Spot) -> Result<Region, NoMemory>
    ensures { IfOk result (λ region. region ≡ region_of wish.now spot.now) }
{
    Ok(Region {
        name: wish.name.copied(alloc)?,
        origin: spot.origin().unwrap_or(0),
        size: wish.size,
        rounded: spot.size,
        cached: wish.cached,
    })
}

// All regions by their wishes and their places.
fn regions_at(
    alloc: Global,
    wishes: &[RegionWish],
    spots: &[Spot],
) -> Result<List<Region>, NoMemory>
    requires { length wishes.now ≡ length spots.now }
    ensures { IfOk result (λ regions. regions ≡ regions_at wishes.now spots.now) }
{
    let mut regions = List::new(alloc);
    for (i, wish) in wishes.iter().enumerate() {
        regions.push(region_of(alloc, wish, &spots[i])?)?;
    }
    Ok(regions)
}

// The fault of the size whose wish at `at` is one past the free slots.
fn exhausted(wishes: &[RegionWish], spots: &[Spot], at: usize) -> Fault
    requires spots { spots.now ≡ spots_of wishes.now }
    requires short { IsShort (spots_of wishes.now) at }
    ensures { IsExhausted wishes.now result }
{
    let wish = &wishes[at];
    let Spot { size, cached, .. } = spots[at];
    Fault {
        line: wish.line,
        kind: Kind::RegionExhausted {
            cached,
            size,
            free: wanted(&spots[..at], cached, size) as u64,
            wanted: wanted(spots, cached, size) as u64,
        },
    }
}

/// The regions at their least places, or the fault of the first size that has more wishes than free slots.
pub fn place_regions(alloc: Global, wishes: &[RegionWish]) -> Result<List<Region>, Refusal>
    requires sized { AreSized wishes.now }
    requires legal { fixed_faults wishes.now ≡ [] }
    ensures { Places wishes.now result }
{
    let mut spots = spots_of(alloc, wishes)?;
    match fill(&mut spots) {
        Ok(()) => Ok(regions_at(alloc, wishes, &spots)?),
        Err(at) => Err(Refusal::Fault(exhausted(wishes, &spots, at))),
    }
}

// Whether each region has at most 4 GiB.
fn fit(wishes: &[RegionWish]) -> bool
    ensures { result ≡ list_all (λ wish. nat_le wish.size 4294967296) wishes.now }
{
    wishes.iter().all(|wish| wish.size <= ADDRESSES)
}

/// Whether each region has a size that a placement is asked for: at most 4 GiB.
pub fn are_sized(wishes: &[RegionWish]) -> bool
    ensures { IsTrue result ↔ AreSized wishes.now }
{
    fit(wishes)
}
