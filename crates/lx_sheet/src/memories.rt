//! Memories of a sheet's design.

ghost use Rattle.std.specs.Prelude.{◌≡◌, ◌<◌, Some, length, slice_get, IfOk};
ghost use Rattle.lx_sheet.specs.Plans.{memory_in};

use crate::tables::Sheet;
use lx_fhdl::Memory;
use lx_text::{NoMemory, Word};
use std::alloc::Global;

/// A memory of a sheet's design.
#[derive(Clone, Copy)]
pub struct MemoryOf<'a> {
    pub sheet: &'a Sheet<'a>,
    pub place: usize,
    pub ghost there: { place < length sheet.now.design.memories },
}

impl<'a> MemoryOf<'a> {
    /// The memory of this number.
    pub fn new(sheet: &'a Sheet<'a>, place: usize) -> MemoryOf<'a>
        requires { place < length sheet.now.design.memories }
        ensures sheet { result.sheet.now ≡ sheet.now }
        ensures place { result.place ≡ place }
    {
        MemoryOf { sheet, place }
    }

    /// Its name.
    pub fn name(self, alloc: Global) -> Result<Word, NoMemory>
        ensures { IfOk result (λ word. word ≡ memory_in self.entry.sheet.now self.entry.place) }
    {
        let sheet = self.sheet;
        let before = sheet.names.len() - sheet.design.memories.len();
        sheet.names.at(before + self.place).copied(alloc)
    }

    /// What the design says of it.
    pub fn memory(self) -> &'a Memory
        ensures item { slice_get self.entry.sheet.now.design.memories self.entry.place ≡ Some result.now }
        ensures narrow { result.now.width < 128 }
    {
        let sheet = self.sheet;
        sheet.design.memories.at(self.place)
    }
}
