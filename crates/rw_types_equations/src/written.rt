// Types as written, as terms.
ghost use Rattle.std.specs.Prelude.{◌≡◌, ◌++◌, IfOk, map, [], option_copied, Some, codes};
ghost use Rattle.rw_types_solving.specs.Types.{plain, plains};
ghost use Rattle.rw_scope_rules.specs.Names.{first_named};
ghost use Rattle.rw_tree.specs.Types.{written, writtens, type_parts};
ghost use Rattle.rw_types_rules.specs.Words.{unit_type, identity as identity_type};
ghost use Rattle.rw_types_rules.specs.Written.{variable_from, variable_applied as applied_variable, identity_applied as applied_identity, state_applied as applied_state, device_applied as applied_device, data_applied as applied_data, constructor_applied as applied_constructor, type_applied as applied_type, types_of as types_of_parts, type_of as whole_type};
ghost use Rattle.rw_types_rules.specs.Schemes.{bool_type};
ghost use Rattle.rw_types_equations.specs.Seen.{seen_types, seen_world};

use crate::operations::{device, state};
use crate::scheme::{DataName, World};
use crate::shape::{computation, function};
use rw_base::{Name, OutOfMemory};
use rw_tree::Written;
use rw_types_solving::{Head, Term, copied};
use sqlite_items::Items;
use std::alloc::Global;

// The unit type.
#[tactic(auto, using(rw_types_solving::proofs::Plains::plain_forms))]
fn unit(alloc: Global) -> Term
    ensures { plain result ≡ unit_type }
{
    Term::App(Head::Tuple, Items::new(alloc))
}

// The monad `I`.
#[tactic(auto, using(rw_types_solving::proofs::Plains::plain_forms))]
fn identity(alloc: Global) -> Term
    ensures { plain result ≡ identity_type }
{
    Term::App(Head::I, Items::new(alloc))
}

// A variable alone, or a computation of it.
#[tactic(auto, using(rw_types_solving::proofs::Plains::plain_forms, crate::proofs::Same::so_many))]
fn variable_applied(alloc: Global, x: Term, arguments: &[Term]) -> Result<Term, OutOfMemory>
    ensures { IfOk result (λ made. plain made ≡ applied_variable (plain x) (plains arguments.now)) }
{
    match arguments {
        [] => Ok(x),
        [a] => computation(alloc, x, copied(alloc, a)?),
        _ => Ok(unit(alloc)),
    }
}

// `I`, or a computation of it.
#[tactic(auto, using(rw_types_solving::proofs::Plains::plain_forms, crate::proofs::Same::so_many))]
fn identity_applied(alloc: Global, arguments: &[Term]) -> Result<Term, OutOfMemory>
    ensures { IfOk result (λ made. plain made ≡ applied_identity (plains arguments.now)) }
{
    match arguments {
        [a] => computation(alloc, identity(alloc), copied(alloc, a)?),
        _ => Ok(identity(alloc)),
    }
}

// `StateT s m`, or a computation of it.
#[tactic(auto, using(rw_types_solving::proofs::Plains::plain_forms, crate::proofs::Same::so_many))]
fn state_applied(alloc: Global, arguments: &[Term]) -> Result<Term, OutOfMemory>
    ensures { IfOk result (λ made. plain made ≡ applied_state (plains arguments.now)) }
{
    match arguments {
        [s, m] => state(alloc, copied(alloc, s)?, copied(alloc, m)?),
        [s, m, a] => {
            let monad = state(alloc, copied(alloc, s)?, copied(alloc, m)?)?;
            computation(alloc, monad, copied(alloc, a)?)
        }
        _ => Ok(unit(alloc)),
    }
}

// `ReT i o m`, or a computation of it.
#[tactic(auto, using(rw_types_solving::proofs::Plains::plain_forms, crate::proofs::Same::so_many))]
fn device_applied(alloc: Global, arguments: &[Term]) -> Result<Term, OutOfMemory>
    ensures { IfOk result (λ made. plain made ≡ applied_device (plains arguments.now)) }
{
    match arguments {
        [i, o, m] => device(
            alloc,
            copied(alloc, i)?,
            copied(alloc, o)?,
            copied(alloc, m)?,
        ),
        [i, o, m, a] => {
            let monad = device(
                alloc,
                copied(alloc, i)?,
                copied(alloc, o)?,
                copied(alloc, m)?,
            )?;
            computation(alloc, monad, copied(alloc, a)?)
        }
        _ => Ok(unit(alloc)),
    }
}

// The number of the data type with this name.
fn found(types: &[DataName], name: &[u8]) -> Option<u32>
    ensures { result ≡ first_named name.now (seen_types types.now) }
{
    for data in types {
        if data.name.is(name) {
            return Some(data.number);
        }
    }
    None
}

// A data type of these arguments.
#[tactic(auto, using(rw_types_solving::proofs::Plains::plain_forms))]
fn data_applied(alloc: Global, number: Option<u32>, arguments: Items<Term>) -> Term
    ensures { plain result ≡ applied_data number (plains arguments) }
{
    match number {
        Some(n) => Term::App(Head::Data(n), arguments),
        None => unit(alloc),
    }
}

// The constructor of types with this name.
#[tactic(auto, using(crate::proofs::Same::same_names))]
fn constructor_applied(
    alloc: Global,
    types: &[DataName],
    name: &Name,
    arguments: Items<Term>,
) -> Result<Term, OutOfMemory>
    ensures { IfOk result (λ made. plain made ≡ applied_constructor (seen_types types.now) name.now (plains arguments)) }
{
    if name.is(b"I") {
        return identity_applied(alloc, arguments.as_slice());
    }
    if name.is(b"StateT") {
        return state_applied(alloc, arguments.as_slice());
    }
    if name.is(b"ReT") {
        return device_applied(alloc, arguments.as_slice());
    }
    Ok(data_applied(alloc, found(types, name.as_slice()), arguments))
}

// The variable of this name. Numbers have 32 bits: more are want of memory.
#[tactic(auto, using(rw_types_solving::proofs::Plains::plain_forms))]
fn variable(alloc: Global, name: &Name, names: &[Name]) -> Result<Term, OutOfMemory>
    ensures { IfOk result (λ made. plain made ≡ variable_from 0 name.now names.now) }
{
    let mut at: u32 = 0;
    for other in names {
        if name.is(other.as_slice()) {
            return Ok(Term::Var(at));
        }
        if at == u32::MAX {
            return Err(OutOfMemory);
        }
        at += 1;
    }
    Ok(unit(alloc))
}

// `Bool`, which the prelude declares.
pub fn bool_term(alloc: Global, world: &World) -> Term
    ensures { plain result ≡ bool_type (seen_world world.now) }
{
    data_applied(
        alloc,
        found(world.types.as_slice(), b"Bool"),
        Items::new(alloc),
    )
}

// A type as written, applied to these arguments. Its variables are numbered as they stand in the list.
#[cycle(writing)]
#[tactic(auto, using(rw_types_solving::proofs::Plains::plain_forms, rw_tree::proofs::Plains::written_forms))]
fn type_applied(
    alloc: Global,
    tree: &Written,
    types: &[DataName],
    variables: &[Name],
    arguments: Items<Term>,
) -> Result<Term, OutOfMemory>
    ensures { IfOk result (λ made. plain made ≡ applied_type (seen_types types.now) variables.now (written tree.now) (plains arguments)) }
{
    match tree {
        Written::Var(name) => {
            let x = variable(alloc, name, variables)?;
            variable_applied(alloc, x, arguments.as_slice())
        }
        Written::Con(name) => constructor_applied(alloc, types, name, arguments),
        Written::Apply(head, parts) => {
            let mut all = types_of(alloc, parts.as_slice(), types, variables)?;
            all.append(arguments)?;
            type_applied(alloc, head.get(), types, variables, all)
        }
        Written::Fun(from, to) => {
            let from = type_applied(alloc, from.get(), types, variables, Items::new(alloc))?;
            let to = type_applied(alloc, to.get(), types, variables, Items::new(alloc))?;
            function(alloc, from, to)
        }
        Written::Tuple(parts) => {
            let parts = types_of(alloc, parts.as_slice(), types, variables)?;
            Ok(Term::App(Head::Tuple, parts))
        }
    }
}

#[cycle(writing)]
fn types_of(
    alloc: Global,
    trees: &[Written],
    types: &[DataName],
    variables: &[Name],
) -> Result<Items<Term>, OutOfMemory>
    ensures { IfOk result (λ made. plains made ≡ types_of_parts (seen_types types.now) variables.now (type_parts (writtens trees.now))) }
{
    let mut all = Items::new(alloc);
    for tree in trees {
        all.push(type_applied(alloc, tree, types, variables, Items::new(alloc))?)?;
    }
    Ok(all)
}

// A type as written, whose variables are numbered as they stand in the list.
pub fn written_type(
    alloc: Global,
    tree: &Written,
    types: &[DataName],
    variables: &[Name],
) -> Result<Term, OutOfMemory>
    ensures { IfOk result (λ made. plain made ≡ whole_type (seen_types types.now) variables.now (written tree.now)) }
{
    type_applied(alloc, tree, types, variables, Items::new(alloc))
}
