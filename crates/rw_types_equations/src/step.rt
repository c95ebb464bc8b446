// What single statements agree in, by the numbers of their parts.
ghost use Rattle.std.specs.Prelude.{◌≡◌, IfOk, map, []};
ghost use Rattle.rw_types_rules.specs.WellTyped.{IsBind, IsThen};
ghost use Rattle.rw_types_equations.specs.Numbered.{argument_numbers};
ghost use Rattle.rw_types_equations.specs.Equations.{Adds};

use crate::equation::{equate, join, never};
use crate::scheme::argument_names;
use crate::shape::computation;
use crate::{Equation, Numbered};
use rw_base::OutOfMemory;
use rw_types_solving::Term;
use sqlite_items::Items;
use std::alloc::Global;

// `>>=` at these variables, of these variables.
fn add_bind_of(
    alloc: Global,
    names: &[u32],
    body: u32,
    bound: u32,
    block: u32,
    out: &mut Items<Equation>,
) -> Result<(), OutOfMemory>
    ensures { IfOk result (λ _. Adds out.old out.new (λ t. IsBind (map t names.now) (t body) (t bound) (t block))) }
{
    if names.len() != 3 {
        never(alloc, out, body)?;
        return Ok(());
    }
    let monad = names[0];
    equate(
        out,
        body,
        computation(alloc, Term::Var(monad), Term::Var(names[1]))?,
    )?;
    join(out, bound, names[1])?;
    equate(
        out,
        block,
        computation(alloc, Term::Var(monad), Term::Var(names[2]))?,
    )?;
    Ok(())
}

// `>>` at these variables, of these variables.
fn add_then_of(
    alloc: Global,
    names: &[u32],
    body: u32,
    block: u32,
    out: &mut Items<Equation>,
) -> Result<(), OutOfMemory>
    ensures { IfOk result (λ _. Adds out.old out.new (λ t. IsThen (map t names.now) (t body) (t block))) }
{
    if names.len() != 3 {
        never(alloc, out, body)?;
        return Ok(());
    }
    let monad = names[0];
    equate(
        out,
        body,
        computation(alloc, Term::Var(monad), Term::Var(names[1]))?,
    )?;
    equate(
        out,
        block,
        computation(alloc, Term::Var(monad), Term::Var(names[2]))?,
    )?;
    Ok(())
}

// `p <- e` in a block.
pub fn add_bind(
    alloc: Global,
    at: Numbered,
    body: u32,
    bound: u32,
    block: u32,
    out: &mut Items<Equation>,
) -> Result<(), OutOfMemory>
    ensures { IfOk result (λ _. Adds out.old out.new (λ t. (t at.number ≡ t block) × IsBind (map t (argument_numbers at)) (t body) (t bound) (t block))) }
{
    join(out, at.number, block)?;
    let names = argument_names(alloc, at)?;
    add_bind_of(alloc, names.as_slice(), body, bound, block, out)?;
    Ok(())
}

// `e` in a block, before another statement.
pub fn add_then(
    alloc: Global,
    at: Numbered,
    body: u32,
    block: u32,
    out: &mut Items<Equation>,
) -> Result<(), OutOfMemory>
    ensures { IfOk result (λ _. Adds out.old out.new (λ t. (t at.number ≡ t block) × IsThen (map t (argument_numbers at)) (t body) (t block))) }
{
    join(out, at.number, block)?;
    let names = argument_names(alloc, at)?;
    add_then_of(alloc, names.as_slice(), body, block, out)?;
    Ok(())
}

// `e` at the end of a block.
pub fn add_last(
    alloc: Global,
    at: Numbered,
    body: u32,
    block: u32,
    out: &mut Items<Equation>,
) -> Result<(), OutOfMemory>
    ensures { IfOk result (λ _. Adds out.old out.new (λ t. (t at.number ≡ t block) × (map t (argument_numbers at) ≡ []) × (t body ≡ t block))) }
{
    if at.arguments != 0 {
        never(alloc, out, body)?;
        return Ok(());
    }
    join(out, at.number, block)?;
    join(out, body, block)?;
    Ok(())
}
