// Types in the words of `rw_types_rules`, as terms.
ghost use Rattle.std.specs.Prelude.{◌≡◌, IfOk, map};
ghost use Rattle.rw_types_solving.specs.Types.{plain, plains, var};
ghost use Rattle.rw_types_rules.specs.Words.{function as function_type, functions as functions_type, computation as computation_type, tuple_type};

use rw_base::OutOfMemory;
use rw_types_solving::{Head, Term, copied};
use sqlite_items::Items;
use std::alloc::Global;

// A function of one argument.
#[tactic(auto, using(rw_types_solving::proofs::Plains::plain_forms))]
pub fn function(alloc: Global, from: Term, to: Term) -> Result<Term, OutOfMemory>
    ensures { IfOk result (λ made. plain made ≡ function_type (plain from) (plain to)) }
{
    let mut parts = Items::new(alloc);
    parts.push(from)?;
    parts.push(to)?;
    Ok(Term::App(Head::Fun, parts))
}

// A computation.
#[tactic(auto, using(rw_types_solving::proofs::Plains::plain_forms))]
pub fn computation(alloc: Global, monad: Term, made: Term) -> Result<Term, OutOfMemory>
    ensures { IfOk result (λ whole. plain whole ≡ computation_type (plain monad) (plain made)) }
{
    let mut parts = Items::new(alloc);
    parts.push(monad)?;
    parts.push(made)?;
    Ok(Term::App(Head::Comp, parts))
}

// These variables.
#[tactic(auto, using(rw_types_solving::proofs::Plains::plain_forms))]
pub fn variables_of(alloc: Global, numbers: &[u32]) -> Result<Items<Term>, OutOfMemory>
    ensures { IfOk result (λ made. plains made ≡ map var numbers.now) }
{
    let mut parts = Items::new(alloc);
    for number in numbers {
        parts.push(Term::Var(*number))?;
    }
    Ok(parts)
}

// The tuple of these variables.
#[tactic(auto, using(rw_types_solving::proofs::Plains::plain_forms))]
pub fn tuple_of(alloc: Global, numbers: &[u32]) -> Result<Term, OutOfMemory>
    ensures { IfOk result (λ made. plain made ≡ tuple_type (map var numbers.now)) }
{
    let parts = variables_of(alloc, numbers)?;
    Ok(Term::App(Head::Tuple, parts))
}

// A function of these types, one after the other, to this one.
pub fn function_from(alloc: Global, takes: &[Term], to: &Term) -> Result<Term, OutOfMemory>
    ensures { IfOk result (λ made. plain made ≡ functions_type (plains takes.now) (plain to.now)) }
{
    let mut whole = copied(alloc, to)?;
    for done in 0..takes.len() {
        let last = copied(alloc, &takes[takes.len() - 1 - done])?;
        whole = function(alloc, last, whole)?;
    }
    Ok(whole)
}

// A function of arguments of these variables, whose result is a variable.
pub fn functions_of(alloc: Global, numbers: &[u32], to: u32) -> Result<Term, OutOfMemory>
    ensures { IfOk result (λ made. plain made ≡ functions_type (map var numbers.now) (var to)) }
{
    let mut whole = Term::Var(to);
    for done in 0..numbers.len() {
        let last = numbers[numbers.len() - 1 - done];
        whole = function(alloc, Term::Var(last), whole)?;
    }
    Ok(whole)
}
