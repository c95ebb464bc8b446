// A table from names to what is known of them. Contracts see a list of names, of which the first counts.
ghost use Rattle.std.specs.Prelude.{◌≡◌, ◌∷◌, [], None, OnOk, OnErr};
ghost use Rattle.rw_scope_rules.specs.Names.{Bytes, first_named};

use indexmap::IndexMap;
use rw_base::{Name, OutOfMemory};
use std::alloc::Global;
use std::marker::Model;

// What each name has, if it has anything.
#[derive(Drop)]
pub struct Table<V: Copy + Drop> {
    index: IndexMap<Name, V>,
}

impl<V: Copy + Drop> Model for Table<V> {
    ghost use Rattle.std.specs.Prelude.{List};
    ghost use Rattle.rw_scope_rules.specs.Names.{Bytes};

    ghost Value = { List (Bytes × V) };

    ghost view = { λ table. table.index.entries };
}

impl<V: Copy + Drop> Table<V> {
    // Nothing is known.
    pub fn new(alloc: Global) -> Table<V>
        ensures { result ≡ [] }
    {
        Table {
            index: IndexMap::new(alloc),
        }
    }

    // What the name has.
    pub fn find(&self, name: &Name) -> Option<V>
        ensures { result ≡ first_named name.now self.now }
    {
        self.index.get(name).copied()
    }

    // Gives the name this, whatever it had. Only for a name that has nothing it may fail.
    pub fn put(&mut self, name: Name, value: V) -> Result<(), OutOfMemory>
        ensures told { OnOk result ((x : Bytes) → first_named x self.new ≡ first_named x ((name, value) ∷ self.old)) }
        ensures same { OnErr result (self.new ≡ self.old) }
        ensures absent { OnErr result (first_named name self.old ≡ None) }
    {
        self.index.insert(name, value)?;
        Ok(())
    }
}
