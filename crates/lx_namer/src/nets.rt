//! The names of a design's nets.

ghost use Rattle.std.specs.Prelude.{◌≡◌, ◌+◌, ◌<◌, Some, length, slice_get};

use lx_fhdl::SigId;
use lx_text::{List, Word};

/// The names of a design's nets and memories.
#[derive(Drop)]
pub struct Names {
    /// One for each signal, then one for each memory.
    pub words: List<Word>,
    /// The number of signals.
    pub signals: usize,
}

impl Names {
    /// All names, those of memories behind those of signals.
    pub fn as_list(&self) -> &List<Word>
        ensures { result.now ≡ self.now.words }
    {
        &self.words
    }

    /// The name of a signal's net.
    pub fn of(&self, s: SigId) -> &[u8]
        requires { s.0 < length self.now.words }
        ensures { slice_get self.now.words s.0 ≡ Some result.now }
    {
        self.words.at(s.0).as_bytes()
    }

    /// The name of a memory, by its place among the memories.
    pub fn memory(&self, m: usize) -> &[u8]
        requires { self.now.signals + m < length self.now.words }
        ensures { slice_get self.now.words (self.now.signals + m) ≡ Some result.now }
    {
        let _all = self.words.len();
        self.words.at(self.signals + m).as_bytes()
    }
}
