//! Names that came one after the other, and whether one came before.

ghost use Rattle.std.specs.Prelude.{◌≡◌, [], IfOk, OnErr, OnOk, not, position};
ghost use Rattle.std.specs.List.{list_any};
ghost use Rattle.std.specs.Str.{bytes_eq};
ghost use Rattle.lx_value.specs.Seen.{with_new};

use lx_names::Table;
use lx_text::NoMemory;
use std::alloc::Global;
use std::marker::Model;

/// Names, each once, in the order in which they came. A contract sees the list of them. A name is found in constant time,
/// on the average.
#[derive(Drop)]
pub struct Seen {
    table: Table<()>,
}

impl Model for Seen {
    ghost use Rattle.std.specs.Prelude.{List, ℕ};
    ghost use Rattle.lx_names.specs.Tables.{names};

    ghost Value = { List (List ℕ) };

    ghost view = { λ seen. names seen.table };
}

impl Seen {
    /// No names.
    pub fn new(alloc: Global) -> Seen
        ensures { result ≡ [] }
    {
        Seen {
            table: Table::new(alloc),
        }
    }

    /// Whether a name came.
    pub fn has(&self, name: &[u8]) -> bool
        ensures { result ≡ list_any (bytes_eq name.now) self.now }
    {
        self.table.get(name).is_some()
    }

    /// The place of a name.
    pub fn place_of(&self, name: &[u8]) -> Option<usize>
        ensures { result ≡ position (bytes_eq name.now) self.now }
    {
        self.table.place_of(name)
    }

    /// Adds a name behind the others, where it isn't there, and tells whether it is new.
    pub fn add(&mut self, name: &[u8]) -> Result<bool, NoMemory>
        ensures new { IfOk result (λ new. new ≡ not (list_any (bytes_eq name.now) self.old)) }
        ensures ok { OnOk result (self.new ≡ with_new name.now self.old) }
        ensures err { OnErr result (self.new ≡ self.old) }
    {
        if self.has(name) {
            return Ok(false);
        }
        self.table.set(name, ())?;
        Ok(true)
    }
}
