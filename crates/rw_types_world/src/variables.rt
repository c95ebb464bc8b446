// The variables of a signature, in order of first sight.
ghost use Rattle.std.specs.Prelude.{◌≡◌, [], IfOk, OnOk};
ghost use Rattle.rw_tree.specs.Types.{written, writtens, type_parts};
ghost use Rattle.rw_scope_rules.specs.Scope.{type_variables, types_variables};
ghost use Rattle.rw_types_rules.specs.Written.{signature_variables as variables_of_signature};
ghost use Rattle.rw_types_world.specs.Sights.{seen_after, with_name};

use indexmap::IndexSet;
use rw_base::{Name, OutOfMemory};
use rw_tree::Written;
use std::alloc::Global;
use std::marker::Model;

// Distinct names. Contracts see the list of them, in the order in which they were added.
#[derive(Drop)]
pub struct Names {
    set: IndexSet<Name>,
}

impl Model for Names {
    ghost use Rattle.std.specs.Prelude.{List, ℕ};

    ghost Value = { List (List ℕ) };

    ghost view = { λ names. names.set.keys };
}

impl Names {
    // No name.
    fn new(alloc: Global) -> Names
        ensures { result ≡ [] }
    {
        Names {
            set: IndexSet::new(alloc),
        }
    }

    // Adds a name, where it is new.
    fn add(&mut self, name: Name) -> Result<(), OutOfMemory>
        ensures { OnOk result (self.new ≡ with_name self.old name) }
    {
        self.set.insert_full(name)?;
        Ok(())
    }

    // The names.
    pub fn as_slice(&self) -> &[Name]
        ensures { result.now ≡ self.now }
    {
        self.set.as_slice()
    }
}

// Adds the variables of a type, each where it is first seen.
#[cycle(seeing)]
#[tactic(auto, using(rw_tree::proofs::Plains::written_forms, crate::proofs::Sights::seen_in_turn))]
fn add_variables(alloc: Global, names: &mut Names, ty: &Written) -> Result<(), OutOfMemory>
    ensures { OnOk result (names.new ≡ seen_after names.old (type_variables (written ty.now))) }
{
    match ty {
        Written::Var(name) => names.add(name.copied(alloc)?),
        Written::Con(_) => Ok(()),
        Written::Apply(head, parts) => {
            add_variables(alloc, names, head.get())?;
            add_all_variables(alloc, names, parts.as_slice())
        }
        Written::Fun(from, to) => {
            add_variables(alloc, names, from.get())?;
            add_variables(alloc, names, to.get())
        }
        Written::Tuple(parts) => add_all_variables(alloc, names, parts.as_slice()),
    }
}

#[cycle(seeing)]
fn add_all_variables(alloc: Global, names: &mut Names, types: &[Written]) -> Result<(), OutOfMemory>
    ensures { OnOk result (names.new ≡ seen_after names.old (types_variables (type_parts (writtens types.now)))) }
{
    for ty in types {
        add_variables(alloc, names, ty)?;
    }
    Ok(())
}

// The variables of a signature.
pub fn signature_variables(alloc: Global, ty: &Written) -> Result<Names, OutOfMemory>
    ensures { IfOk result (λ names. names ≡ variables_of_signature (written ty.now)) }
{
    let mut names = Names::new(alloc);
    add_variables(alloc, &mut names, ty)?;
    Ok(names)
}
