// A table from names to what is known of them. Contracts see a list of names, of which the first counts.
ghost use Rattle.std.specs.Prelude.{◌≡◌, ◌∷◌, ◌++◌, [], List, OnOk};
ghost use Rattle.std.specs.Option.{option_copied};
ghost use Rattle.rw_scope_rules.specs.Names.{Bytes, first_named};

use indexmap::IndexMap;
use rw_base::{Name, OutOfMemory};
use std::alloc::Global;
use std::marker::Model;

/// What each name has, if it has anything.
#[derive(Drop)]
pub struct Table<V: Drop> {
    index: IndexMap<Name, V>,
}

impl<V: Drop> Model for Table<V> {
    ghost use Rattle.std.specs.Prelude.{List};
    ghost use Rattle.rw_scope_rules.specs.Names.{Bytes};

    ghost Value = { List (Bytes × V) };

    ghost view = { λ table. table.index.entries };
}

impl<V: Drop> Table<V> {
    /// Nothing is known.
    pub fn new(alloc: Global) -> Table<V>
        ensures { result ≡ [] }
    {
        Table {
            index: IndexMap::new(alloc),
        }
    }

    /// What the name has.
    pub fn find(&self, name: &Name) -> Option<&V>
        ensures { option_copied result ≡ first_named name.now self.now }
    {
        self.index.get(name)
    }

    /// Gives the name this, behind what is known: it counts only if the name had nothing.
    pub fn add(&mut self, name: Name, value: V) -> Result<(), OutOfMemory>
        ensures { OnOk result ((x : Bytes) (rest : List (Bytes × V)) → first_named x (self.new ++ rest) ≡ first_named x (self.old ++ (name, value) ∷ rest)) }
    {
        if self.index.contains_key(&name) {
            return Ok(());
        }
        self.index.insert(name, value)?;
        Ok(())
    }

    /// Gives the name this, whatever it had.
    pub fn put(&mut self, name: Name, value: V) -> Result<(), OutOfMemory>
        ensures { OnOk result ((x : Bytes) → first_named x self.new ≡ first_named x ((name, value) ∷ self.old)) }
    {
        self.index.insert(name, value)?;
        Ok(())
    }
}
