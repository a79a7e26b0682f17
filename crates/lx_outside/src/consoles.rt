//! Text in memory that is said.

ghost use Rattle.std.specs.Prelude.{◌≡◌, ◌∷◌, [], ◌≤◌, ℕ, Some, None, IfOk, is_ok};
ghost use Rattle.lx_outside.specs.Calls.{Says};
ghost use Rattle.lx_outside.specs.Memory.{after_say, say_succeeds};

use crate::calls::{Console, Fail, Failed};
use crate::rooms::{add_bytes, front, taken_at};
use lx_text::{List, NoMemory};
use std::alloc::Global;
use std::marker::Model;

/// A console that keeps what is said, up to a stated number of bytes. The listed calls fail.
#[derive(Drop)]
pub struct MemConsole {
    bytes: Vec<u8>,
    room: usize,
    fails: List<Fail>,
    calls: u64,
    faults: u64,
}

impl Model for MemConsole {
    ghost use Rattle.std.specs.Prelude.{◌≤◌, length};
    ghost use Rattle.std.specs.Vec.{vec_capacity, vec_len};
    ghost use Rattle.lx_outside.specs.Memory.{ConsoleState};

    ghost Value = { ConsoleState };

    ghost view = { λ s. record { bytes = s.bytes.items; room = s.room; fails = s.fails; calls = s.calls; faults = s.faults } };

    ghost invariant = { λ s. s.room ≤ vec_capacity s.bytes };
}

impl MemConsole {
    /// A console with room for so many bytes, whose listed calls fail.
    pub fn new(alloc: Global, bytes: usize, fails: List<Fail>) -> Result<MemConsole, NoMemory>
        ensures { IfOk result (λ made. made ≡ record { bytes = []; room = bytes; fails = fails; calls = 0; faults = 0 }) }
    {
        Ok(MemConsole {
            bytes: Vec::with_capacity(alloc, bytes)?,
            room: bytes,
            fails,
            calls: 0,
            faults: 0,
        })
    }

    /// What was said.
    pub fn bytes(&self) -> &[u8]
        ensures { result.now ≡ self.now.bytes }
    {
        self.bytes.as_slice()
    }
}

impl Console for MemConsole {
    ghost said = { λ s. Some s.bytes };

    ghost faults = { λ s. s.faults };

    fn say(&mut self, bytes: &[u8]) -> Result<(), Failed>
        ensures never_falls { self.old.faults ≤ self.new.faults }
        ensures says { Says (Some self.old.bytes) (Some self.new.bytes) self.old.faults self.new.faults bytes.now result }
        ensures after { self.new ≡ after_say self.old bytes.now }
        ensures answer { is_ok result ≡ say_succeeds self.old bytes.now }
    {
        self.calls = self.calls.saturating_add(1);
        let taken = taken_at(self.fails.as_slice(), self.calls);
        let front = front(bytes, taken);
        let added = add_bytes(&mut self.bytes, self.room, front);
        if added && taken.is_none() {
            return Ok(());
        }
        self.faults = self.faults.saturating_add(1);
        Err(Failed)
    }
}

/// A console that tells nothing and never fails.
#[derive(Clone, Copy, Default)]
pub struct NullConsole;

impl NullConsole {
    /// The console.
    pub fn new() -> NullConsole {
        NullConsole
    }
}

impl Console for NullConsole {
    ghost said = { λ _. None };

    ghost faults = { λ _. 0 };

    fn say(&mut self, _bytes: &[u8]) -> Result<(), Failed> {
        Ok(())
    }
}
