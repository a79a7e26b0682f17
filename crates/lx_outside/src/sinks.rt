//! Files in memory that are stored.

ghost use Rattle.std.specs.Prelude.{◌≡◌, ◌+◌, ◌<◌, ◌∷◌, [], ◌≤◌, ◌++◌, ◌&&◌, ℕ, Some, None, IfOk, is_ok, length, nat_lt, nat_le, if◌then◌else◌, slice_get};
ghost use Rattle.lx_outside.specs.Calls.{Stores, pair};
ghost use Rattle.lx_outside.specs.Memory.{after_store, store_succeeds};
ghost use Rattle.lx_outside.specs.Cuts.{IsRoomy, pairs_at};
ghost use Rattle.std.specs.Option.{option_map};

use crate::calls::{Fail, Failed, Sink};
use crate::rooms::{front, taken_at};
use lx_text::{List, NoMemory};
use std::alloc::Global;
use std::marker::Model;

// Where a pair lies: its name from start to middle, its bytes from middle to end.
#[derive(Clone, Copy)]
struct Cut {
    start: usize,
    middle: usize,
    end: usize,
}

/// A sink that keeps what is stored, up to stated numbers of pairs and of bytes. The listed calls fail.
#[derive(Drop)]
pub struct MemSink {
    text: Vec<u8>,
    cuts: Vec<Cut>,
    byte_room: usize,
    pair_room: usize,
    fails: List<Fail>,
    calls: u64,
    faults: u64,
}

impl Model for MemSink {
    ghost use Rattle.std.specs.Prelude.{length};
    ghost use Rattle.lx_outside.specs.Memory.{SinkState};

    ghost Value = { SinkState };

    ghost use Rattle.lx_outside.specs.Cuts.{pairs_at, IsRoomy};

    ghost view = { λ s. record { pairs = pairs_at s.text.items s.cuts.items; pair_room = s.pair_room; used = length s.text.items; byte_room = s.byte_room; fails = s.fails; calls = s.calls; faults = s.faults } };

    ghost invariant = { λ s. IsRoomy s.text s.cuts s.byte_room s.pair_room };
}

impl MemSink {
    /// A sink with room for so many pairs, and for so many bytes of them with their names, whose listed calls fail.
    pub fn new(
        alloc: Global,
        pairs: usize,
        bytes: usize,
        fails: List<Fail>,
    ) -> Result<MemSink, NoMemory>
        ensures { IfOk result (λ made. made ≡ record { pairs = []; pair_room = pairs; used = 0; byte_room = bytes; fails = fails; calls = 0; faults = 0 }) }
    {
        Ok(MemSink {
            text: Vec::with_capacity(alloc, bytes)?,
            cuts: Vec::with_capacity(alloc, pairs)?,
            byte_room: bytes,
            pair_room: pairs,
            fails,
            calls: 0,
            faults: 0,
        })
    }

    /// How many pairs are stored.
    pub fn count(&self) -> usize
        ensures { result ≡ length self.now.pairs }
    {
        self.cuts.len()
    }

    /// The name of a pair.
    pub fn name(&self, place: usize) -> &[u8]
        requires { place < length self.now.pairs }
        ensures { option_map (λ pair. pair.name) (slice_get self.now.pairs place) ≡ Some result.now }
    {
        let cut = self.cuts[place];
        &self.text[cut.start..cut.middle]
    }

    /// The bytes of a pair.
    pub fn bytes(&self, place: usize) -> &[u8]
        requires { place < length self.now.pairs }
        ensures { option_map (λ pair. pair.bytes) (slice_get self.now.pairs place) ≡ Some result.now }
    {
        let cut = self.cuts[place];
        &self.text[cut.middle..cut.end]
    }
}

impl Sink for MemSink {
    ghost stored = { λ s. Some s.pairs };

    ghost faults = { λ s. s.faults };

    fn store(&mut self, name: &[u8], bytes: &[u8]) -> Result<(), Failed>
        ensures never_falls { self.old.faults ≤ self.new.faults }
        ensures stores { Stores (Some self.old.pairs) (Some self.new.pairs) self.old.faults self.new.faults name.now bytes.now result }
        ensures after { self.new ≡ after_store self.old name.now bytes.now }
        ensures answer { is_ok result ≡ store_succeeds self.old name.now bytes.now }
    {
        self.calls = self.calls.saturating_add(1);
        let taken = taken_at(self.fails.as_slice(), self.calls);
        let front = front(bytes, taken);
        let added = add_pair(
            &mut self.text,
            &mut self.cuts,
            self.byte_room,
            self.pair_room,
            name,
            front,
        );
        if added && taken.is_none() {
            return Ok(());
        }
        self.faults = self.faults.saturating_add(1);
        Err(Failed)
    }
}

/// A sink that tells nothing and never fails.
#[derive(Clone, Copy, Default)]
pub struct NullSink;

impl NullSink {
    /// The sink.
    pub fn new() -> NullSink {
        NullSink
    }
}

impl Sink for NullSink {
    ghost stored = { λ _. None };

    ghost faults = { λ _. 0 };

    fn store(&mut self, _name: &[u8], _bytes: &[u8]) -> Result<(), Failed> {
        Ok(())
    }
}

// Lays a pair behind the others where there is room for it, and says whether there is.
fn add_pair(
    text: &mut Vec<u8>,
    cuts: &mut Vec<Cut>,
    byte_room: usize,
    pair_room: usize,
    name: &[u8],
    bytes: &[u8],
) -> bool
    requires { IsRoomy text.old cuts.old byte_room pair_room }
    ensures answer { result ≡ (nat_lt (length cuts.old.items) pair_room && nat_le (length text.old.items + (length name.now + length bytes.now)) byte_room) }
    ensures pairs { pairs_at text.new.items cuts.new.items
        ≡ (if result then pairs_at text.old.items cuts.old.items ++ pair name.now bytes.now ∷ [] else pairs_at text.old.items cuts.old.items) }
    ensures used { length text.new.items ≡ (if result then length text.old.items + (length name.now + length bytes.now) else length text.old.items) }
    ensures roomy { IsRoomy text.new cuts.new byte_room pair_room }
{
    let start = text.len();
    if cuts.len() >= pair_room
        || start > byte_room
        || name.len() > byte_room - start
        || bytes.len() > byte_room - start - name.len()
    {
        return false;
    }
    let middle = start + name.len();
    let end = middle + bytes.len();
    let named = text.extend_from_slice(name).is_ok();
    let filled = text.extend_from_slice(bytes).is_ok();
    named && filled && cuts.push(Cut { start, middle, end }).is_ok()
}
