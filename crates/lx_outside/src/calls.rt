//! What the program asks of the outside.

ghost use Rattle.std.specs.Prelude.{◌≡◌, ◌≤◌, ℕ, List, Option, OnErr};

use lx_text::{List, Word};
use std::alloc::Global;

/// A file by its name and its bytes.
#[derive(Drop)]
pub struct Pair {
    pub name: Word,
    pub bytes: List<u8>,
}

/// A call that is to fail, by its number, the first being 1, and how many bytes it still takes.
#[derive(Clone, Copy)]
pub struct Fail {
    pub call: u64,
    pub taken: u64,
}

/// Why a file was not loaded.
#[derive(Drop)]
pub enum LoadFault {
    /// There is no file of the name.
    NoFile,
    /// The file is longer than the limit: its first `limit + 1` bytes.
    TooLong(List<u8>),
    /// Reading failed.
    Failed,
    NoMemory,
}

/// Writing failed.
#[derive(Clone, Copy, PartialEq, Eq)]
pub struct Failed;

/// Files that are read.
pub trait Source {
    ghost use Rattle.lx_outside.specs.Calls.{Loads, longest};
    ghost use Rattle.lx_outside.specs.declared.calls.Pair.{Pair};

    // the files, where the source tells them, and how many calls failed
    ghost files: { Self → Option (List Pair) };

    ghost faults: { Self → ℕ };

    /// The bytes of the file of this name, of which there may be `limit` at most.
    fn load(&mut self, alloc: Global, name: &[u8], limit: u64) -> Result<List<u8>, LoadFault>
        requires { limit ≤ longest }
        ensures files_stay { files self.new ≡ files self.old }
        ensures never_falls { faults self.old ≤ faults self.new }
        ensures loads { Loads (files self.old) name.now limit (faults self.old) (faults self.new) result };
}

/// Files that are stored.
pub trait Sink {
    ghost use Rattle.lx_outside.specs.Calls.{Stores};
    ghost use Rattle.lx_outside.specs.declared.calls.Pair.{Pair};

    // the pairs stored so far, in order, where the sink tells them, and how many calls failed
    ghost stored: { Self → Option (List Pair) };

    ghost faults: { Self → ℕ };

    /// Stores a file. It takes no memory.
    fn store(&mut self, name: &[u8], bytes: &[u8]) -> Result<(), Failed>
        ensures never_falls { faults self.old ≤ faults self.new }
        ensures stores { Stores (stored self.old) (stored self.new) (faults self.old) (faults self.new) name.now bytes.now result };
}

/// Text that is said.
pub trait Console {
    ghost use Rattle.lx_outside.specs.Calls.{Says};

    // the bytes said so far, where the console tells them, and how many calls failed
    ghost said: { Self → Option (List ℕ) };

    ghost faults: { Self → ℕ };

    /// Says these bytes. It takes no memory.
    fn say(&mut self, bytes: &[u8]) -> Result<(), Failed>
        ensures never_falls { faults self.old ≤ faults self.new }
        ensures says { Says (said self.old) (said self.new) (faults self.old) (faults self.new) bytes.now result };
}
