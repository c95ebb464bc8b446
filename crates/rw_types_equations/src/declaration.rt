// Declarations: what their types have to agree in.
ghost use Rattle.std.specs.Prelude.{◌≡◌, IfOk, map, option_copied, Some};
ghost use Rattle.rw_types_solving.specs.Types.{apply, plain};
ghost use Rattle.rw_tree.specs.Trees.{alternative_of};
ghost use Rattle.rw_tree.specs.Declarations.{declaration};
ghost use Rattle.rw_types_rules.specs.Words.{unknown as unknown_type, unit_type};
ghost use Rattle.rw_types_rules.specs.Schemes.{scheme_type, scheme_at};
ghost use Rattle.rw_types_rules.specs.WellTyped.{IsOwnType, AllClausesAgree, DeclarationAgrees};
ghost use Rattle.rw_types_equations.specs.Numbered.{typed_by};
ghost use Rattle.rw_types_equations.specs.Seen.{seen_scheme, seen_option, seen_world};
ghost use Rattle.rw_types_equations.specs.Equations.{Adds};

use crate::clause::add_clauses;
use crate::equation::{equate, never};
use crate::locals::Locals;
use crate::name::{constructed_at, declared_at};
use crate::operations::operation_scheme;
use crate::shape::function;
use crate::{Equation, Numbered, Scheme, World};
use rw_base::OutOfMemory;
use rw_scope_rules::Binding;
use rw_tree::{Alt, Decl};
use rw_types_solving::{Head, Term};
use sqlite_items::Items;
use std::alloc::Global;

// A type with its variables as unknown types.
#[cycle(owning)]
#[tactic(auto, using(crate::proofs::Renewing::renewed_steps))]
fn unknown(alloc: Global, term: &Term) -> Result<Term, OutOfMemory>
    ensures { IfOk result (λ made. plain made ≡ apply unknown_type (plain term.now)) }
{
    match term {
        Term::Var(x) => Ok(Term::App(Head::Unknown(*x), Items::new(alloc))),
        Term::App(head, parts) => Ok(Term::App(*head, all_unknown(alloc, parts.as_slice())?)),
    }
}

#[cycle(owning)]
fn all_unknown(alloc: Global, terms: &[Term]) -> Result<Items<Term>, OutOfMemory>
    ensures { IfOk result (λ made. map plain made ≡ map (apply unknown_type) (map plain terms.now)) }
{
    let mut all = Items::new(alloc);
    for term in terms {
        all.push(unknown(alloc, term)?)?;
    }
    Ok(all)
}

// The type of a declaration: its signature with its variables as unknown types.
fn own_type(alloc: Global, scheme: &Scheme) -> Result<Term, OutOfMemory>
    ensures { IfOk result (λ made. plain made ≡ apply unknown_type (scheme_type (seen_scheme scheme.now))) }
{
    let takes = scheme.takes.as_slice();
    let mut whole = unknown(alloc, &scheme.gives)?;
    for done in 0..takes.len() {
        let last = unknown(alloc, &takes[takes.len() - 1 - done])?;
        whole = function(alloc, last, whole)?;
    }
    Ok(whole)
}

// The variable is the type of a declaration of this scheme.
fn add_own(
    alloc: Global,
    scheme: &Scheme,
    number: u32,
    out: &mut Items<Equation>,
) -> Result<(), OutOfMemory>
    ensures { IfOk result (λ _. Adds out.old out.new (λ t. IsOwnType (Some (seen_scheme scheme.now)) (t number))) }
{
    equate(out, number, own_type(alloc, scheme)?)?;
    Ok(())
}

// The same, if there is a scheme.
fn add_own_if(
    alloc: Global,
    scheme: Option<&Scheme>,
    number: u32,
    out: &mut Items<Equation>,
) -> Result<(), OutOfMemory>
    ensures { IfOk result (λ _. Adds out.old out.new (λ t. IsOwnType (seen_option (option_copied scheme.entry)) (t number))) }
{
    match scheme {
        Some(scheme) => {
            add_own(alloc, scheme, number, out)?;
            Ok(())
        }
        None => {
            never(alloc, out, number)?;
            Ok(())
        }
    }
}

// The variable is the type of what has this binding, as a declaration of it.
fn add_own_binding(
    alloc: Global,
    world: &World,
    binding: Binding,
    number: u32,
    out: &mut Items<Equation>,
) -> Result<(), OutOfMemory>
    ensures { IfOk result (λ _. Adds out.old out.new (λ t. IsOwnType (scheme_at (seen_world world.now) (Some binding)) (t number))) }
{
    match binding {
        Binding::Declared(n) => {
            add_own_if(alloc, declared_at(world, n), number, out)?;
            Ok(())
        }
        Binding::Operation(operation) => {
            let scheme = operation_scheme(alloc, operation)?;
            add_own(alloc, &scheme, number, out)?;
            Ok(())
        }
        Binding::Constructor(n, place) => {
            add_own_if(alloc, constructed_at(world, n, place), number, out)?;
            Ok(())
        }
        Binding::Local(_) => {
            never(alloc, out, number)?;
            Ok(())
        }
    }
}

// The variable is the type of what a declaration is bound to.
fn add_own_bound(
    alloc: Global,
    world: &World,
    at: Numbered,
    out: &mut Items<Equation>,
) -> Result<(), OutOfMemory>
    ensures { IfOk result (λ _. Adds out.old out.new (λ t. IsOwnType (scheme_at (seen_world world.now) at.node.bound) (t at.number))) }
{
    match at.node.bound {
        Some(binding) => {
            add_own_binding(alloc, world, binding, at.number, out)?;
            Ok(())
        }
        None => {
            never(alloc, out, at.number)?;
            Ok(())
        }
    }
}

// The types of the clauses of a declaration agree, and each is of this type.
fn add_all_clauses(
    alloc: Global,
    trees: &[Alt<Numbered>],
    number: u32,
    world: &World,
    out: &mut Items<Equation>,
) -> Result<(), OutOfMemory>
    ensures { IfOk result (λ _. Adds out.old out.new (λ t. AllClausesAgree (seen_world world.now) (t number) (map (alternative_of (typed_by t)) trees.now))) }
{
    let mut locals = Locals::new(alloc);
    let type_ = Term::Var(number);
    add_clauses(alloc, trees, &type_, world, &mut locals, out)?;
    Ok(())
}

// The variable is the unit type.
#[tactic(auto, using(rw_types_solving::proofs::Plains::plain_forms))]
fn add_unit(alloc: Global, number: u32, out: &mut Items<Equation>) -> Result<(), OutOfMemory>
    ensures { IfOk result (λ _. Adds out.old out.new (λ t. t number ≡ unit_type)) }
{
    equate(out, number, Term::App(Head::Tuple, Items::new(alloc)))?;
    Ok(())
}

/// Adds equations that hold under an assignment of types to numbers exactly where the types of the declaration agree. They
/// are as many as its nodes, in proportion, and none is solved.
pub fn add_declaration(
    alloc: Global,
    tree: &Decl<Numbered>,
    world: &World,
    out: &mut Items<Equation>,
) -> Result<(), OutOfMemory>
    ensures { IfOk result (λ _. Adds out.old out.new (λ t. DeclarationAgrees (seen_world world.now) (declaration (typed_by t) tree.now))) }
{
    match tree {
        Decl::Import(at, _) => {
            add_unit(alloc, at.number, out)?;
            Ok(())
        }
        Decl::Data(at, _) => {
            add_unit(alloc, at.number, out)?;
            Ok(())
        }
        Decl::Fixity(at, _, _, _) => {
            add_unit(alloc, at.number, out)?;
            Ok(())
        }
        Decl::Sig(at, _, _) => {
            add_unit(alloc, at.number, out)?;
            Ok(())
        }
        Decl::Fun(at, _, clauses) => {
            add_own_bound(alloc, world, *at, out)?;
            add_all_clauses(alloc, clauses.as_slice(), at.number, world, out)?;
            Ok(())
        }
    }
}
