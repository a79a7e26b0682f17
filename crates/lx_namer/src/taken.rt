//! Names that are taken, and the first that is free.

ghost use Rattle.std.specs.Prelude.{◌≡◌, ◌≤◌, ◌^◌, [], IfOk, OnOk};
ghost use Rattle.lx_emission.specs.Naming.{is_among};
ghost use Rattle.lx_namer.specs.Taken.{AreTakenBelow, IsFirstFree, IsTakenToo, free_name, numbered};

use lx_names::Table;
use lx_text::{NoMemory, Text, Word};
use std::alloc::Global;
use std::marker::Model;

/// Names that are taken. A contract sees the list of them.
#[derive(Drop)]
pub struct Taken {
    // Behind each name the number that is tried next, where another asks for it: those from 2 up to it are taken.
    table: Table<u128>,
}

impl Model for Taken {
    ghost use Rattle.std.specs.Prelude.{List, ℕ};
    ghost use Rattle.lx_names.specs.Tables.{names};

    ghost Value = { List (List ℕ) };

    ghost view = { λ taken. names taken.table };

    ghost use Rattle.lx_namer.specs.Taken.{NextsHold};

    ghost invariant = { λ taken. NextsHold taken.table };
}

// A name that is free, and its number behind the base.
#[derive(Drop)]
struct Found {
    name: Word,
    number: u128,
}

// The base itself, or the base with a number from 2 on.
#[tactic(auto, using(lx_vtext::proofs::Numbers::number_decimal), unfolding(crate::specs::Taken::numbered))]
fn numbered(alloc: Global, base: &[u8], number: u128) -> Result<Word, NoMemory>
    ensures { IfOk result (λ name. name ≡ numbered base.now number) }
{
    let mut text = Text::new(alloc);
    text.word(base)?;
    if number != 1 {
        text.word(b"_")?;
        text.count(number)?;
    }
    Ok(Word::from_list(text.into_list()))
}

impl Taken {
    /// No name is taken.
    pub fn new(alloc: Global) -> Taken
        ensures { result ≡ [] }
    {
        Taken {
            table: Table::new(alloc),
        }
    }

    /// Whether a name is taken.
    pub fn has(&self, name: &[u8]) -> bool
        ensures { result ≡ is_among name.now self.now }
    {
        self.table.get(name).is_some()
    }

    /// Takes a name, which may be taken already.
    pub fn add(&mut self, name: &[u8]) -> Result<(), NoMemory>
        ensures { OnOk result (IsTakenToo self.old self.new name.now) }
    {
        if self.has(name) {
            return Ok(());
        }
        self.table.set(name, 2)
    }

    // The number that is tried first behind the base.
    fn next(&self, base: &[u8]) -> u128
        ensures { AreTakenBelow self.now base.now result }
    {
        match self.table.get(base) {
            Some(next) => next,
            None => 1,
        }
    }

    fn first_free(&self, alloc: Global, base: &[u8]) -> Result<Found, NoMemory>
        ensures first { IfOk result (λ found. IsFirstFree self.now base.now found.name found.number) }
        ensures few { IfOk result (λ found. found.number ≤ 2 ^ 64) }
    {
        let most = self.table.len() as u128;
        let mut number = self.next(base);
        let mut name = numbered(alloc, base, number)?;
        'tried: while self.has(name.as_bytes()) {
            number += 1;
            name = numbered(alloc, base, number)?;
        }
        Ok(Found { name, number })
    }

    // Takes the name that was found free behind the base.
    fn keep(&mut self, base: &[u8], found: &Found) -> Result<(), NoMemory>
        requires first { IsFirstFree self.old base.now found.now.name found.now.number }
        requires few { found.now.number ≤ 2 ^ 64 }
        ensures { OnOk result (IsTakenToo self.old self.new found.now.name) }
    {
        self.table.set(found.name.as_bytes(), 2)?;
        self.table.set(base, found.number + 1)
    }

    /// Takes the first name that is free of `<base>`, `<base>_2`, `<base>_3` and so on, and gives it.
    pub fn free(&mut self, alloc: Global, base: &[u8]) -> Result<Word, NoMemory>
        ensures is { IfOk result (λ name. name ≡ free_name self.old base.now) }
        ensures taken { IfOk result (λ name. IsTakenToo self.old self.new name) }
    {
        let found = self.first_free(alloc, base)?;
        self.keep(base, &found)?;
        Ok(found.name)
    }
}
