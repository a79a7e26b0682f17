//! A table over a map that finds a name in constant time, on the average.

ghost use Rattle.std.specs.Prelude.{◌≡◌, ◌↔◌, [], length, slice_get, IsTrue, IfSome, OnErr, OnOk, option_map};
ghost use Rattle.lx_names.specs.Tables.{AreDistinct, TableHolds, look_up, place_of, with_name, without};
ghost use Rattle.lx_names.specs.Worked.{AreWorked};

use indexmap::IndexMap;
use lx_text::NoMemory;
use std::alloc::Global;
use std::marker::Model;

/// Values under names, in the order in which the names came first. A contract sees the list of the names, each with
/// its value.
#[derive(Drop)]
pub struct Table<T: Copy + Drop> {
    map: IndexMap<Vec<u8>, T>,
}

impl<T: Copy + Drop> Model for Table<T> {
    ghost use Rattle.std.specs.Prelude.{ℕ, List};
    ghost use Rattle.std.specs.Coded.{coded_list, coded_ℕ, coded×};

    ghost Value = { List (List ℕ × T) };

    ghost coded = { coded_list (coded× (coded_list coded_ℕ) T.code) };

    ghost use Rattle.std.specs.Prelude.{map as each};

    ghost view = { λ table. each (λ e. (e.0.items, e.1)) table.map.entries };
}

impl<T: Copy + Drop> Table<T> {
    /// The table without names.
    pub fn new(alloc: Global) -> Table<T>
        ensures { result ≡ [] }
    {
        Table {
            map: IndexMap::new(alloc),
        }
    }

    /// The number of names, which are distinct.
    pub fn len(&self) -> usize
        ensures is { result ≡ length self.now }
        ensures distinct { AreDistinct self.now }
    {
        self.map.len()
    }

    /// The value under a name.
    pub fn get(&self, name: &[u8]) -> Option<T>
        ensures { result ≡ look_up self.now name.now }
    {
        self.map.get(name).copied()
    }

    /// The place of a name.
    pub fn place_of(&self, name: &[u8]) -> Option<usize>
        ensures { result ≡ place_of self.now name.now }
    {
        self.map.get_index_of(name)
    }

    /// The name and the value at a place.
    pub fn at(&self, place: usize) -> Option<(&[u8], T)>
        ensures { option_map (λ e. (e.0.now, e.1)) result ≡ slice_get self.now place }
    {
        match self.map.get_index(place) {
            Some((name, value)) => Some((name.as_slice(), *value)),
            None => None,
        }
    }

    /// Puts a value under a name, in the place of the old one where the name is there.
    pub fn set(&mut self, name: &[u8], value: T) -> Result<(), NoMemory>
        ensures ok { OnOk result (self.new ≡ with_name self.old name.now value) }
        ensures err { OnErr result (self.new ≡ self.old) }
    {
        let key = Vec::from_slice(*self.map.allocator(), name)?;
        self.map.insert(key, value)?;
        Ok(())
    }

    /// Takes a name out, and gives its value. The names behind it move up, so that a name that came last goes in
    /// constant time.
    pub fn remove(&mut self, name: &[u8]) -> Option<T>
        ensures value { result ≡ look_up self.old name.now }
        ensures after { self.new ≡ without self.old name.now }
    {
        self.map.shift_remove(name)
    }
}

/// What changes of a table do to what it says, and names stay distinct.
pub fn table_law<T: Copy + Drop>()
    ensures { TableHolds T }
{}

/// Tables worked by hand.
pub fn tables_are_worked()
    ensures { AreWorked }
{}
