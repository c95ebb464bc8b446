// The local names that are bound on the way to a place. Contracts see them as a scope: the latest first.
ghost use Rattle.std.specs.Prelude.{◌≡◌, ◌∷◌, [], ◌<◌, length, OnOk};
ghost use Rattle.rw_scope_binding.specs.Stack.{number_at, lowest, below_last};

use crate::table::Table;
use rw_base::{Name, OutOfMemory};
use std::alloc::Global;
use std::marker::Model;

// A name that is bound, and the number of the binder that it hides.
#[derive(Drop)]
struct Binder {
    name: Name,
    before: Option<u32>,
}

// The binders in order, and for each name that was ever bound the number of its latest binder, if one is left.
#[derive(Drop)]
pub struct Locals {
    latest: Table<Option<u32>>,
    binders: Vec<Binder>,
}

impl Model for Locals {
    ghost use Rattle.rw_scope_rules.specs.Bindings.{Scope};

    ghost Value = { Scope };

    ghost use Rattle.rw_scope_binding.specs.Binders.{names_of_binders, IsStack};

    ghost view = { λ locals. names_of_binders locals.binders.items };

    ghost invariant = { λ locals. IsStack locals.latest locals.binders.items };
}

impl Locals {
    // No name.
    pub fn new(alloc: Global) -> Locals
        ensures { result ≡ [] }
    {
        Locals {
            latest: Table::new(alloc),
            binders: Vec::new(alloc),
        }
    }

    // How many names there are.
    pub fn depth(&self) -> u32
        ensures { result ≡ length self.now }
    {
        self.binders.len() as u32
    }

    // The number of the latest binder of a name: how many were bound before it.
    pub fn find(&self, name: &Name) -> Option<u32>
        ensures { result ≡ number_at name.now self.now }
    {
        match self.latest.find(name) {
            Some(number) => number,
            None => None,
        }
    }

    // Binds a name. There are fewer than 2^32 of them: more are want of memory.
    pub fn bind(&mut self, alloc: Global, name: &Name) -> Result<(), OutOfMemory>
        ensures { OnOk result (self.new ≡ name.now ∷ self.old) }
    {
        let number = self.binders.len();
        if number >= u32::MAX as usize {
            return Err(OutOfMemory);
        }
        let before = self.find(name);
        let copy = name.copied(alloc)?;
        let other = name.copied(alloc)?;
        self.binders.push(Binder { name: copy, before })?;
        if let Err(want) = self.latest.put(other, Some(number as u32)) {
            self.binders.pop();
            return Err(want);
        }
        Ok(())
    }

    // Unbinds the latest name, if there is one.
    fn unbind(&mut self) -> Result<(), OutOfMemory>
        ensures { OnOk result (self.new ≡ below_last self.old) }
    {
        if let Some(Binder { name, before }) = self.binders.pop() {
            self.latest.put(name, before)?;
        }
        Ok(())
    }

    // Unbinds the latest names until this many are left.
    #[tactic(auto, using(crate::proofs::Forms::leave_steps))]
    pub fn leave(&mut self, depth: u32) -> Result<(), OutOfMemory>
        ensures { OnOk result (self.new ≡ lowest depth self.old) }
    {
        while self.depth() > depth {
            self.unbind()?;
        }
        Ok(())
    }
}
