//! The open levels of indentation.

ghost use Rattle.std.specs.Prelude.{◌≡◌, ◌++◌, ◌∷◌, [], ◌<◌, ◌≤◌, length, take};
ghost use Rattle.lx_token.specs.Tokens.{innermost, levels_within};

use std::marker::Model;

// So many levels may be open.
pub(crate) const MOST_LEVELS: usize = 64;

/// The widths of the open levels, from the outermost on.
#[derive(Drop)]
pub struct Levels {
    widths: [u32; MOST_LEVELS],
    count: usize,
}

impl Model for Levels {
    ghost use Rattle.std.specs.Prelude.{List, ℕ, ◌≤◌, take};

    ghost Value = { List ℕ };

    ghost view = { λ levels. take levels.count levels.widths };

    ghost invariant = { λ levels. levels.count ≤ 64 };
}

impl Levels {
    pub(crate) fn new() -> Levels
        ensures { result ≡ [] }
    {
        Levels {
            widths: [0; MOST_LEVELS],
            count: 0,
        }
    }

    // How many there are.
    pub(crate) fn len(&self) -> usize
        ensures value { result ≡ length self.now }
        ensures bound { result ≤ MOST_LEVELS }
    {
        self.count
    }

    // The width of the innermost level; 0 where none is open.
    pub(crate) fn innermost(&self) -> u32
        ensures { result ≡ innermost self.now }
    {
        if self.count == 0 {
            0
        } else {
            self.widths[self.count - 1]
        }
    }

    // How many of them a line of this width leaves open.
    pub(crate) fn within(&self, width: u32) -> usize
        ensures value { result ≡ length (levels_within width self.now) }
        ensures kept { take result self.now ≡ levels_within width self.now }
        ensures bound { result ≤ length self.now }
    {
        prefix_within(width, &self.widths[..self.count])
    }

    // Opens one more.
    pub(crate) fn push(&mut self, width: u32)
        requires { length self.old < MOST_LEVELS }
        ensures { self.new ≡ self.old ++ width ∷ [] }
    {
        self.widths[self.count] = width;
        self.count += 1;
    }

    // Closes all but so many.
    pub(crate) fn keep(&mut self, count: usize)
        requires { count ≤ length self.old }
        ensures { self.new ≡ take count self.old }
    {
        self.count = count;
    }
}

// How many levels at the front are at most so wide.
fn prefix_within(width: u32, levels: &[u32]) -> usize
    ensures value { result ≡ length (levels_within width levels.now) }
    ensures kept { take result levels.now ≡ levels_within width levels.now }
    ensures bound { result ≤ length levels.now }
{
    for (i, level) in levels.iter().enumerate() {
        if *level > width {
            return i;
        }
    }
    levels.len()
}
