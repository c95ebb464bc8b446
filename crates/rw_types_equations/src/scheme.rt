// The types of names at top level, and their instances.
ghost use Rattle.std.specs.Prelude.{◌≡◌, IfOk, map};
ghost use Rattle.rw_types_solving.specs.Types.{plain, var, apply};
ghost use Rattle.rw_types_rules.specs.WellTyped.{given};
ghost use Rattle.rw_types_equations.specs.Numbered.{argument_numbers};

use crate::Numbered;
use rw_base::{Name, OutOfMemory};
use rw_types_rules::VariableKind;
use rw_types_solving::{Head, Term};
use sqlite_items::Items;
use std::alloc::Global;

/// The type of a name: its variables by their kinds, what it takes, and what it gives. For a constructor it takes its fields.
#[derive(Drop)]
pub struct Scheme {
    pub kinds: Items<VariableKind>,
    pub takes: Items<Term>,
    pub gives: Term,
}

/// A data type, and the number of its declaration.
#[derive(Drop)]
pub struct DataName {
    pub name: Name,
    pub number: u32,
}

/// What the names of a program's types, functions and constructors are, by the numbers of their declarations.
#[derive(Drop)]
pub struct World {
    pub types: Items<DataName>,
    pub declared: Items<Option<Scheme>>,
    pub constructed: Items<Items<Scheme>>,
}

// A type whose variables are these, by their numbers. There is one for each.
#[cycle(renewing)]
#[tactic(auto, using(crate::proofs::Renewing::renewed_steps))]
pub fn renewed(alloc: Global, term: &Term, names: &[u32]) -> Result<Term, OutOfMemory>
    ensures { IfOk result (λ made. plain made ≡ apply (given (map var names.now)) (plain term.now)) }
{
    match term {
        Term::Var(x) => match names.get(*x as usize) {
            Some(name) => Ok(Term::Var(*name)),
            None => Ok(Term::App(Head::Tuple, Items::new(alloc))),
        },
        Term::App(head, parts) => {
            Ok(Term::App(*head, all_renewed(alloc, parts.as_slice(), names)?))
        }
    }
}

// The same of each of these types.
#[cycle(renewing)]
pub fn all_renewed(alloc: Global, terms: &[Term], names: &[u32]) -> Result<Items<Term>, OutOfMemory>
    ensures { IfOk result (λ made. map plain made ≡ map (apply (given (map var names.now))) (map plain terms.now)) }
{
    let mut all = Items::new(alloc);
    for term in terms {
        all.push(renewed(alloc, term, names)?)?;
    }
    Ok(all)
}

// The numbers of a node's arguments. Numbers have 32 bits: more are want of memory.
pub fn argument_names(alloc: Global, at: Numbered) -> Result<Items<u32>, OutOfMemory>
    ensures { IfOk result (λ names. names ≡ argument_numbers at) }
{
    let mut names = Items::new(alloc);
    let mut last = at.number;
    for done in 0..at.arguments {
        if last == u32::MAX {
            return Err(OutOfMemory);
        }
        last += 1;
        names.push(last)?;
    }
    Ok(names)
}
