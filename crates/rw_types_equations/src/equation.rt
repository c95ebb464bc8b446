// Equations on the variables of a tree.
ghost use Rattle.std.specs.Prelude.{◌≡◌, ℕ, IfOk, map};
ghost use Rattle.rw_types_solving.specs.Types.{Ty, apply, plain, plains};
ghost use Rattle.rw_types_rules.specs.Words.{functions};
ghost use Rattle.rw_types_equations.specs.Equations.{Adds};

use crate::shape::{function, variables_of};
use rw_base::OutOfMemory;
use rw_types_solving::Term;
use sqlite_items::Items;
use std::alloc::Global;

/// A variable is this type, or, where it takes some, a function of these types to this one. They stand in a list and not inside one another,
/// so that a row of many patterns or arguments makes no type as deep as it is long.
#[derive(Drop)]
pub struct Equation {
    pub variable: u32,
    pub takes: Option<Items<Term>>,
    pub is: Term,
}

// Adds that the variable is this type.
pub fn equate(out: &mut Items<Equation>, variable: u32, is: Term) -> Result<(), OutOfMemory>
    ensures { IfOk result (λ _. Adds out.old out.new (λ t. t variable ≡ apply t (plain is))) }
{
    out.push(Equation {
        variable,
        takes: None,
        is,
    })?;
    Ok(())
}

// Adds that the variable is a function of these types, one after the other, to this type.
pub fn equate_function(
    out: &mut Items<Equation>,
    variable: u32,
    takes: Items<Term>,
    is: Term,
) -> Result<(), OutOfMemory>
    ensures { IfOk result (λ _. Adds out.old out.new (λ t. t variable ≡ apply t (functions (plains takes) (plain is)))) }
{
    out.push(Equation {
        variable,
        takes: Some(takes),
        is,
    })?;
    Ok(())
}

// Adds that two variables are the same.
pub fn join(out: &mut Items<Equation>, variable: u32, other: u32) -> Result<(), OutOfMemory>
    ensures { IfOk result (λ _. Adds out.old out.new (λ t. t variable ≡ t other)) }
{
    equate(out, variable, Term::Var(other))?;
    Ok(())
}

// Adds that a variable is a function of others, one after the other, to the last.
pub fn join_function(
    alloc: Global,
    out: &mut Items<Equation>,
    variable: u32,
    from: &[u32],
    to: u32,
) -> Result<(), OutOfMemory>
    ensures { IfOk result (λ _. Adds out.old out.new (λ t. t variable ≡ functions (map t from.now) (t to))) }
{
    equate_function(out, variable, variables_of(alloc, from)?, Term::Var(to))?;
    Ok(())
}

// Adds what never holds: that the variable is a part of itself.
pub fn never(alloc: Global, out: &mut Items<Equation>, variable: u32) -> Result<(), OutOfMemory>
    ensures { IfOk result (λ _. Adds out.old out.new (λ _. ⊥)) }
{
    let inside = function(alloc, Term::Var(variable), Term::Var(variable))?;
    equate(out, variable, inside)?;
    Ok(())
}
