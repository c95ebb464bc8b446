// The local names on the way to a place, each by the number of its binder's node. Contracts see the list of these, the first first.
ghost use Rattle.std.specs.Prelude.{◌≡◌, ◌++◌, ◌∷◌, [], OnOk, take, length, slice_get, option_copied};

use rw_base::OutOfMemory;
use std::alloc::Global;
use std::marker::Model;

/// The numbers of the binders of the local names, in the order in which they are bound.
#[derive(Drop)]
pub struct Locals {
    numbers: Vec<u32>,
}

impl Model for Locals {
    ghost use Rattle.std.specs.Prelude.{ℕ, List};

    ghost Value = { List ℕ };

    ghost view = { λ locals. locals.numbers.items };
}

impl Locals {
    /// No name.
    pub fn new(alloc: Global) -> Locals
        ensures { result ≡ [] }
    {
        Locals {
            numbers: Vec::new(alloc),
        }
    }

    // How many there are.
    pub fn depth(&self) -> usize
        ensures { result ≡ length self.now }
    {
        self.numbers.len()
    }

    // The binder of a local name.
    pub fn binder(&self, k: u32) -> Option<u32>
        ensures { result ≡ slice_get self.now k }
    {
        self.numbers.get(k as usize).copied()
    }

    // Binds a name.
    pub fn enter(&mut self, number: u32) -> Result<(), OutOfMemory>
        ensures { OnOk result (self.new ≡ self.old ++ number ∷ []) }
    {
        self.numbers.push(number)?;
        Ok(())
    }

    // Unbinds names until this many are left.
    pub fn leave(&mut self, depth: usize)
        ensures { self.new ≡ take depth self.old }
    {
        self.numbers.truncate(depth);
    }
}
