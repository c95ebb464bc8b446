// Names in the order of first sight, each with its place.
ghost use Rattle.std.specs.Prelude.{◌≡◌, ◌++◌, ◌∷◌, [], not, length, IfOk, position, bytes_eq, if◌then◌else◌};
ghost use Rattle.explicit_form.specs.Fit.{is_among};

use indexmap::IndexSet;
use rw_base::{Name, OutOfMemory};
use std::alloc::Global;
use std::marker::Model;

// Distinct names. Contracts see the list of them.
#[derive(Drop)]
pub struct Names {
    set: IndexSet<Name>,
}

impl Model for Names {
    ghost use Rattle.std.specs.Prelude.{List, ℕ};

    ghost Value = { List (List ℕ) };

    ghost view = { λ names. names.set.keys };
}

impl Names {
    // No name.
    pub fn new(alloc: Global) -> Names
        ensures { result ≡ [] }
    {
        Names {
            set: IndexSet::new(alloc),
        }
    }

    // Adds a name, where it is new, and says whether it is.
    pub fn add(&mut self, name: Name) -> Result<bool, OutOfMemory>
        ensures added { IfOk result (λ added. added ≡ not (is_among name self.old)) }
        ensures names { IfOk result (λ added. self.new ≡ (if added then self.old ++ name ∷ [] else self.old)) }
    {
        let (_, added) = self.set.insert_full(name)?;
        Ok(added)
    }

    // Whether the name is among them.
    pub fn contains(&self, name: &Name) -> bool
        ensures { result ≡ is_among name.now self.now }
    {
        self.set.contains(name)
    }

    // How many there are.
    pub fn len(&self) -> usize
        ensures { result ≡ length self.now }
    {
        self.set.len()
    }

    // The place of a name, from 0.
    pub fn place(&self, name: &Name) -> Option<usize>
        ensures { result ≡ position (bytes_eq name.now) self.now }
    {
        self.set.get_index_of(name)
    }
}
