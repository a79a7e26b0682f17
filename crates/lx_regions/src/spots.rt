//! Regions with their places, and the two windows of the address space.

ghost use Rattle.std.specs.Prelude.{◌≡◌, ◌+◌, ◌≤◌};
ghost use Rattle.lx_regions.specs.Rounded.{rounded};
ghost use Rattle.lx_regions.specs.Free.{wanted};
ghost use Rattle.lx_regions.specs.Space.{window_start, is_inside};

/// Where a region is.
#[derive(Clone, Copy)]
pub enum Place {
    /// At the origin that was stated for it.
    Fixed(u64),
    /// At an origin that was chosen for it.
    Chosen(u64),
    /// Nowhere yet.
    Open,
}

/// A region of the address space, by its place, its rounded size in bytes, and whether it is cached.
#[derive(Clone, Copy)]
pub struct Spot {
    pub place: Place,
    pub size: u64,
    pub cached: bool,
}

/// A region's size rounded up to a power of two, at least 4.
pub fn rounded_size(size: u64) -> u64
    requires { size ≤ 4294967296 }
    ensures { result ≡ rounded size }
{
    size.max(4).next_power_of_two()
}

/// The bytes of a window.
pub const WINDOW: u64 = 0x8000_0000;

/// The first byte of a window.
pub fn start_of(cached: bool) -> u64
    ensures { result ≡ window_start cached }
{
    if cached { 0 } else { WINDOW }
}

/// Whether the bytes from an origin on lie in a window.
#[tactic(auto, unfolding(crate::specs::Space::is_inside))]
pub fn is_inside(cached: bool, origin: u64, size: u64) -> bool
    requires { origin + size ≤ 4294967296 }
    ensures { result ≡ is_inside cached origin size }
{
    let start = start_of(cached);
    start <= origin && origin + size <= start + WINDOW
}

/// How many regions of this window and size wish for a place.
pub fn wanted(spots: &[Spot], cached: bool, size: u64) -> usize
    ensures { result ≡ wanted cached size spots.now }
{
    spots
        .iter()
        .filter(|spot| spot.is_wanted(cached, size))
        .count()
}

impl Spot {
    ghost use Rattle.std.specs.Prelude.{◌<◌, ◌↔◌, IsTrue};
    ghost use Rattle.lx_regions.specs.Space.{is_open, origin_of, reopened};
    ghost use Rattle.lx_regions.specs.Free.{is_wanted};
    ghost use Rattle.lx_regions.specs.Least.{rank};

    /// Whether it has no place yet.
    pub fn is_open(&self) -> bool
        ensures { result ≡ is_open self.now.place }
    {
        match self.place {
            Place::Open => true,
            _ => false,
        }
    }

    // The region without the place that was chosen for it.
    pub(crate) fn reopened(self) -> Spot
        ensures { result ≡ reopened self }
    {
        let place = match self.place {
            Place::Chosen(_) => Place::Open,
            place => place,
        };
        Spot { place, ..self }
    }

    // Whether it is of this window and size and has no place yet.
    fn is_wanted(&self, cached: bool, size: u64) -> bool
        ensures { result ≡ is_wanted cached size self.now }
    {
        self.is_open() && self.cached == cached && self.size == size
    }

    /// The address of its first byte, where it has a place.
    pub fn origin(&self) -> Option<u64>
        ensures { result ≡ origin_of self.now.place }
    {
        match self.place {
            Place::Fixed(origin) | Place::Chosen(origin) => Some(origin),
            Place::Open => None,
        }
    }

    /// Whether it is placed before the other, wherever they were declared: the cached window goes first, and then
    /// the larger region.
    pub fn is_ahead_of(&self, other: &Spot) -> bool
        requires own { self.now.size ≤ 4294967296 }
        requires others { other.now.size ≤ 4294967296 }
        ensures { IsTrue result ↔ (rank other.now < rank self.now) }
    {
        if self.cached == other.cached {
            self.size > other.size
        } else {
            self.cached
        }
    }
}
