// The strengths of a program's operators, in a table (Haskell 2010 Report, section 4.4.2).
ghost use Rattle.std.specs.Prelude.{◌≡◌, ◌∷◌, [], List, ℕ, Some, None, OnOk, IfOk, is_some, option_copied};
ghost use Rattle.rw_parser_grammar.specs.Chains.{strength_of_name};
ghost use Rattle.rw_parser_chains.specs.Fixities.{known_in, first_of, said_of, declared_in, strength_at};

use indexmap::IndexMap;
use rw_base::{Name, OutOfMemory, Span};
use rw_prelude::prelude_decls;
use rw_tree::{Decl, Side};
use std::alloc::Global;
use std::marker::Model;

/// The side and the strength of an operator.
pub type Strength = (Side, u32);

/// The strengths of operators. Contracts see names with strengths.
#[derive(Drop)]
pub struct Fixities {
    table: IndexMap<Vec<u8>, Strength>,
}

impl Model for Fixities {
    ghost use Rattle.std.specs.Prelude.{List, ℕ, map};
    ghost use Rattle.rw_parser_grammar.specs.Chains.{Strength};

    ghost Value = { List (List ℕ × Strength) };

    ghost view = { λ f. map (λ e. (e.0.items, e.1)) f.table.entries };
}

impl Fixities {
    /// Those of a program with these declarations: its own count before those of the prelude.
    pub fn of(alloc: Global, decls: &[Decl<Span>]) -> Result<Fixities, OutOfMemory>
        ensures { IfOk result (λ fixities. strength_at fixities ≡ strength_of_name decls.now) }
    {
        let prelude = prelude_decls(alloc)?;
        let mut fixities = Fixities::new(alloc);
        fixities.add_all(alloc, decls)?;
        fixities.add_all(alloc, prelude.as_slice())?;
        Ok(fixities)
    }

    /// The strength of a name.
    pub fn strength(&self, name: &[u8]) -> Strength
        ensures { result ≡ strength_at self.now name.now }
    {
        match self.get(name) {
            Some(strength) => *strength,
            None => (Side::Left, 9),
        }
    }

    fn new(alloc: Global) -> Fixities
        ensures { (name : List ℕ) → known_in result name ≡ None }
    {
        Fixities {
            table: IndexMap::new(alloc),
        }
    }

    fn get(&self, name: &[u8]) -> Option<&Strength>
        ensures { option_copied result ≡ known_in self.now name.now }
    {
        self.table.get(name)
    }

    fn has(&self, name: &[u8]) -> bool
        ensures { result ≡ is_some (known_in self.now name.now) }
    {
        self.table.contains_key(name)
    }

    // A name that has a strength keeps it.
    fn add(&mut self, alloc: Global, name: &Name, strength: Strength) -> Result<(), OutOfMemory>
        ensures { OnOk result ((x : List ℕ) → known_in self.new x ≡ first_of (known_in self.old x) (said_of (name.now ∷ []) strength x)) }
    {
        if self.has(name.as_slice()) {
            return Ok(());
        }
        let name = Vec::from_slice(alloc, name.as_slice())?;
        self.table.insert(name, strength)?;
        Ok(())
    }

    fn add_names(
        &mut self,
        alloc: Global,
        names: &[Name],
        strength: Strength,
    ) -> Result<(), OutOfMemory>
        ensures { OnOk result ((x : List ℕ) → known_in self.new x ≡ first_of (known_in self.old x) (said_of names.now strength x)) }
    {
        for name in names {
            self.add(alloc, name, strength)?;
        }
        Ok(())
    }

    fn add_all(&mut self, alloc: Global, decls: &[Decl<Span>]) -> Result<(), OutOfMemory>
        ensures { OnOk result ((x : List ℕ) → known_in self.new x ≡ first_of (known_in self.old x) (declared_in decls.now x)) }
    {
        for decl in decls {
            self.add_decl(alloc, decl)?;
        }
        Ok(())
    }

    fn add_decl(&mut self, alloc: Global, decl: &Decl<Span>) -> Result<(), OutOfMemory>
        ensures { OnOk result ((x : List ℕ) → known_in self.new x ≡ first_of (known_in self.old x) (declared_in (decl.now ∷ []) x)) }
    {
        match decl {
            Decl::Fixity(_, side, strength, names) => {
                self.add_names(alloc, names.as_slice(), (*side, *strength))
            }
            _ => Ok(()),
        }
    }
}
