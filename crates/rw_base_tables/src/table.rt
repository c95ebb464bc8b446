// A table from names to what is known of them. Contracts see it as a function.
ghost use Rattle.std.specs.Prelude.{◌≡◌, OnOk, None, is_some, option_copied};
ghost use Rattle.rw_base_tables.specs.Tables.{Bytes, known_in, put};

use indexmap::IndexMap;
use rw_base::OutOfMemory;
use std::alloc::Global;
use std::marker::Model;

/// What each name has, if it has anything.
#[derive(Drop)]
pub struct Table<V: Drop> {
    index: IndexMap<Vec<u8>, V>,
}

impl<V: Drop> Model for Table<V> {
    ghost use Rattle.std.specs.Prelude.{List, map};
    ghost use Rattle.rw_base_tables.specs.Tables.{Bytes};

    ghost Value = { List (Bytes × V) };

    ghost view = { λ t. map (λ e. (e.0.items, e.1)) t.index.entries };
}

impl<V: Drop> Table<V> {
    /// Nothing is known.
    pub fn new(alloc: Global) -> Table<V>
        ensures { (x : Bytes) → known_in result x ≡ None }
    {
        Table {
            index: IndexMap::new(alloc),
        }
    }

    /// What the name with these bytes has.
    pub fn get(&self, name: &[u8]) -> Option<&V>
        ensures { option_copied result ≡ known_in self.now name.now }
    {
        self.index.get(name)
    }

    /// Whether the name has anything.
    pub fn has(&self, name: &[u8]) -> bool
        ensures { result ≡ is_some (known_in self.now name.now) }
    {
        self.index.contains_key(name)
    }

    /// Gives the name this, whatever it had.
    pub fn put(&mut self, alloc: Global, name: &[u8], value: V) -> Result<(), OutOfMemory>
        ensures { OnOk result ((x : Bytes) → known_in self.new x ≡ put name.now value (known_in self.old) x) }
    {
        self.index.insert(Vec::from_slice(alloc, name)?, value)?;
        Ok(())
    }
}
