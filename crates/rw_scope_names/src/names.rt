// Sets of names.
ghost use Rattle.std.specs.Prelude.{◌≡◌, ◌++◌, ◌∷◌, [], not, IfOk, OnOk, if◌then◌else◌};
ghost use Rattle.rw_scope_rules.specs.Names.{Bytes, is_among};
ghost use Rattle.rw_scope_rules.specs.Scope.{are_among};

use indexmap::IndexSet;
use rw_base::{Name, OutOfMemory};
use std::alloc::Global;
use std::marker::Model;

// Distinct names. Contracts see the list of them, in the order in which they were added.
#[derive(Drop)]
pub struct Names {
    set: IndexSet<Name>,
}

impl Model for Names {
    ghost use Rattle.std.specs.Prelude.{List, ℕ};

    ghost Value = { List (List ℕ) };

    ghost view = { λ names. names.set.keys };
}

impl Names {
    // No name.
    pub fn new(alloc: Global) -> Names
        ensures { result ≡ [] }
    {
        Names {
            set: IndexSet::new(alloc),
        }
    }

    // Adds a name, where it is new, and says whether it is.
    pub fn add(&mut self, name: Name) -> Result<bool, OutOfMemory>
        ensures added { IfOk result (λ added. added ≡ not (is_among name self.old)) }
        ensures names { IfOk result (λ added. self.new ≡ (if added then self.old ++ name ∷ [] else self.old)) }
    {
        let (_, added) = self.set.insert_full(name)?;
        Ok(added)
    }

    // Adds a name, where it is new.
    pub fn put(&mut self, name: Name) -> Result<(), OutOfMemory>
        ensures { OnOk result ((x : Bytes) → is_among x self.new ≡ is_among x (name ∷ self.old)) }
    {
        self.add(name)?;
        Ok(())
    }

    // Whether a name is one of these.
    pub fn has(&self, name: &Name) -> bool
        ensures { result ≡ is_among name.now self.now }
    {
        self.set.contains(name)
    }

    // Whether each of these names is one of those.
    pub fn have(&self, names: &[Name]) -> bool
        ensures { result ≡ are_among names.now self.now }
    {
        for name in names {
            if !self.has(name) {
                return false;
            }
        }
        true
    }
}
