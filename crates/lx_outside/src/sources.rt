//! Files in memory that are read.

ghost use Rattle.std.specs.Prelude.{◌≡◌, ◌∷◌, [], ◌≤◌, ◌<◌, ◌↔◌, ℕ, true, IsTrue, Some, Err, length};
ghost use Rattle.lx_outside.specs.Calls.{Loads, longest, are_distinct, is_new, file_of};
ghost use Rattle.lx_outside.specs.Memory.{is_listed, after_load, fails_next};
ghost use Rattle.lx_outside.specs.declared.calls.LoadFault.TheVariants.{Failed};
ghost use Rattle.std.specs.Option.{option_map};

use crate::calls::{LoadFault, Pair, Source};
use lx_text::List;
use std::alloc::Global;
use std::marker::Model;

/// Whether no two files have the same name.
pub fn have_distinct_names(files: &[Pair]) -> bool
    ensures { result ≡ are_distinct files.now }
{
    for (place, file) in files.iter().enumerate() {
        if !is_new_name(file.name.as_bytes(), &files[place + 1..]) {
            return false;
        }
    }
    true
}

// Whether no file has this name.
fn is_new_name(name: &[u8], files: &[Pair]) -> bool
    ensures { result ≡ is_new name.now files.now }
{
    for file in files {
        if file.name.as_bytes() == name {
            return false;
        }
    }
    true
}

/// A source of files in memory. The listed calls fail, the first call being number 1.
#[derive(Drop)]
pub struct MemSource {
    files: List<Pair>,
    fails: List<u64>,
    calls: u64,
    faults: u64,
}

impl Model for MemSource {
    ghost use Rattle.lx_outside.specs.Memory.{SourceState};

    ghost Value = { SourceState };

    ghost view = { λ s. record { files = s.files; fails = s.fails; calls = s.calls; faults = s.faults } };
}

impl MemSource {
    /// A source of these files, of distinct names, whose calls of these numbers fail.
    pub fn new(files: List<Pair>, fails: List<u64>) -> MemSource
        requires { IsTrue (are_distinct files) }
        ensures { result ≡ record { files = files; fails = fails; calls = 0; faults = 0 } }
    {
        MemSource {
            files,
            fails,
            calls: 0,
            faults: 0,
        }
    }
}

impl Source for MemSource {
    ghost files = { λ s. Some s.files };

    ghost faults = { λ s. s.faults };

    fn load(&mut self, alloc: Global, name: &[u8], limit: u64) -> Result<List<u8>, LoadFault>
        requires { limit ≤ longest }
        ensures files_stay { Some self.new.files ≡ Some self.old.files }
        ensures never_falls { self.old.faults ≤ self.new.faults }
        ensures loads { Loads (Some self.old.files) name.now limit self.old.faults self.new.faults result }
        ensures after { self.new ≡ after_load self.old }
        ensures listed { IsTrue (fails_next self.old) → result ≡ Err Failed }
    {
        self.calls = self.calls.saturating_add(1);
        if is_among(self.fails.as_slice(), self.calls) {
            self.faults = self.faults.saturating_add(1);
            return Err(LoadFault::Failed);
        }
        load_from(alloc, self.files.as_slice(), name, limit)
    }
}

/// A source of files in memory that never fails.
#[derive(Drop)]
pub struct SureSource {
    files: List<Pair>,
}

impl Model for SureSource {
    ghost use Rattle.std.specs.Prelude.{List};
    ghost use Rattle.lx_outside.specs.declared.calls.Pair.{Pair};

    ghost Value = { List Pair };

    ghost view = { λ s. s.files };
}

impl SureSource {
    /// A source of these files, of distinct names.
    pub fn new(files: List<Pair>) -> SureSource
        requires { IsTrue (are_distinct files) }
        ensures { result ≡ files }
    {
        SureSource { files }
    }
}

impl Source for SureSource {
    ghost files = { λ files. Some files };

    ghost faults = { λ _. 0 };

    fn load(&mut self, alloc: Global, name: &[u8], limit: u64) -> Result<List<u8>, LoadFault> {
        load_from(alloc, self.files.as_slice(), name, limit)
    }
}

// Whether a call is listed.
fn is_among(calls: &[u64], call: u64) -> bool
    ensures { result ≡ is_listed calls.now call }
{
    for listed in calls {
        if *listed == call {
            return true;
        }
    }
    false
}

// The file of a name.
fn file_named<'a>(files: &'a [Pair], name: &[u8]) -> Option<&'a [u8]>
    ensures { option_map (λ bytes. bytes.now) result ≡ file_of files.now name.now }
{
    for file in files {
        if file.name.as_bytes() == name {
            return Some(file.bytes.as_slice());
        }
    }
    None
}

// What a load from these files answers where reading doesn't fail.
fn load_from(alloc: Global, files: &[Pair], name: &[u8], limit: u64) -> Result<List<u8>, LoadFault>
    requires { limit ≤ longest }
    ensures { (before now : ℕ) → Loads (Some files.now) name.now limit before now result }
{
    let Some(bytes) = file_named(files, name) else {
        return Err(LoadFault::NoFile);
    };
    let limit = limit as usize;
    if bytes.len() > limit {
        return match Vec::from_slice(alloc, &bytes[..limit + 1]) {
            Ok(front) => Err(LoadFault::TooLong(List::from_vec(front))),
            Err(_) => Err(LoadFault::NoMemory),
        };
    }
    match Vec::from_slice(alloc, bytes) {
        Ok(bytes) => Ok(List::from_vec(bytes)),
        Err(_) => Err(LoadFault::NoMemory),
    }
}
