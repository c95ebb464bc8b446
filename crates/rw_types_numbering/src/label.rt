// The labels of nodes, and the kinds of their numbers. The next number is the length of the list of kinds.
ghost use Rattle.std.specs.Prelude.{◌≡◌, ◌∷◌, ◌++◌, [], length, get_or, slice_get, IfOk, OnOk, Some, None, option_copied};
ghost use Rattle.rw_types_rules.specs.declared.kind.VariableKind.TheVariants.{Plain as plain_kind};
ghost use Rattle.rw_types_rules.specs.Schemes.{operation_scheme as scheme_of, scheme_at};
ghost use Rattle.rw_types_rules.specs.Typings.{scheme_kinds};
ghost use Rattle.rw_types_equations.specs.Seen.{seen_option, seen_world};
ghost use Rattle.rw_types_numbering.specs.Slots.{name_kinds};
ghost use Rattle.rw_types_numbering.specs.Numbering.{label};

use rw_base::OutOfMemory;
use rw_scope_rules::{Binding, Bound, Operation};
use rw_types_equations::{Numbered, Scheme, World, operation_scheme};
use rw_types_rules::VariableKind;
use sqlite_items::Items;
use std::alloc::Global;

// A count as a number. Numbers have 32 bits: more are want of memory.
fn number_of(count: usize) -> Result<u32, OutOfMemory>
    ensures { IfOk result (λ number. number ≡ count) }
{
    if count > u32::MAX as usize {
        return Err(OutOfMemory);
    }
    Ok(count as u32)
}

// Takes a number for a node's type.
fn take_number(kinds: &mut Items<VariableKind>) -> Result<u32, OutOfMemory>
    ensures number { IfOk result (λ number. number ≡ length kinds.old) }
    ensures kinds { OnOk result (kinds.new ≡ kinds.old ++ plain_kind ∷ []) }
{
    let number = number_of(kinds.len())?;
    kinds.push(VariableKind::Plain)?;
    Ok(number)
}

// Takes a number for each of these kinds, and says how many.
fn take_arguments(
    more: &[VariableKind],
    kinds: &mut Items<VariableKind>,
) -> Result<u32, OutOfMemory>
    ensures count { IfOk result (λ count. count ≡ length more.now) }
    ensures kinds { OnOk result (kinds.new ≡ kinds.old ++ more.now) }
{
    for kind in more {
        kinds.push(*kind)?;
    }
    let count = number_of(more.len())?;
    Ok(count)
}

/// The type of the function that this declaration declares, if it has one.
#[tactic(auto, using(rw_types_equations::proofs::Kept::looked_up))]
pub fn declared_at(world: &World, n: u32) -> Option<&Scheme>
    ensures { seen_option (option_copied result) ≡ get_or (seen_world world.now).declared n None }
{
    match world.declared.get(n as usize) {
        Some(Some(scheme)) => Some(scheme),
        Some(None) => None,
        None => None,
    }
}

/// The type of the constructor with this place of the data type that this declaration declares, if there is one.
#[tactic(auto, using(rw_types_equations::proofs::Kept::looked_up))]
pub fn constructed_at(world: &World, n: u32, place: u32) -> Option<&Scheme>
    ensures { seen_option (option_copied result) ≡ slice_get (get_or (seen_world world.now).constructed n []) place }
{
    match world.constructed.get(n as usize) {
        Some(schemes) => schemes.get(place as usize),
        None => None,
    }
}

// Takes a number for each variable of a scheme, if there is one, and says how many.
fn take_variables(
    scheme: Option<&Scheme>,
    kinds: &mut Items<VariableKind>,
) -> Result<u32, OutOfMemory>
    ensures count { IfOk result (λ count. count ≡ length (scheme_kinds (seen_option (option_copied scheme.entry)))) }
    ensures kinds { OnOk result (kinds.new ≡ kinds.old ++ scheme_kinds (seen_option (option_copied scheme.entry))) }
{
    match scheme {
        Some(scheme) => take_arguments(scheme.kinds.as_slice(), kinds),
        None => Ok(0),
    }
}

// Takes a number for each variable of an operation, and says how many.
fn take_operation(
    alloc: Global,
    operation: Operation,
    kinds: &mut Items<VariableKind>,
) -> Result<u32, OutOfMemory>
    ensures count { IfOk result (λ count. count ≡ length (scheme_of operation).kinds) }
    ensures kinds { OnOk result (kinds.new ≡ kinds.old ++ (scheme_of operation).kinds) }
{
    let scheme = operation_scheme(alloc, operation)?;
    take_arguments(scheme.kinds.as_slice(), kinds)
}

// Takes a number for each variable of what a name is bound to, and says how many.
fn take_binding(
    alloc: Global,
    world: &World,
    binding: Binding,
    kinds: &mut Items<VariableKind>,
) -> Result<u32, OutOfMemory>
    ensures count { IfOk result (λ count. count ≡ length (scheme_kinds (scheme_at (seen_world world.now) (Some binding)))) }
    ensures kinds { OnOk result (kinds.new ≡ kinds.old ++ scheme_kinds (scheme_at (seen_world world.now) (Some binding))) }
{
    match binding {
        Binding::Declared(n) => take_variables(declared_at(world, n), kinds),
        Binding::Operation(operation) => take_operation(alloc, operation, kinds),
        Binding::Constructor(n, place) => take_variables(constructed_at(world, n, place), kinds),
        Binding::Local(_) => Ok(0),
    }
}

// The same, if it is bound.
fn take_bound(
    alloc: Global,
    world: &World,
    bound: Option<Binding>,
    kinds: &mut Items<VariableKind>,
) -> Result<u32, OutOfMemory>
    ensures count { IfOk result (λ count. count ≡ length (scheme_kinds (scheme_at (seen_world world.now) bound))) }
    ensures kinds { OnOk result (kinds.new ≡ kinds.old ++ scheme_kinds (scheme_at (seen_world world.now) bound)) }
{
    match bound {
        Some(binding) => take_binding(alloc, world, binding, kinds),
        None => Ok(0),
    }
}

// The label of a node of no instance.
pub fn plain_label(at: Bound, kinds: &mut Items<VariableKind>) -> Result<Numbered, OutOfMemory>
    ensures label { IfOk result (λ made. made ≡ label at (length kinds.old) 0) }
    ensures kinds { OnOk result (kinds.new ≡ kinds.old ++ plain_kind ∷ []) }
{
    let number = take_number(kinds)?;
    Ok(Numbered {
        node: at,
        number,
        arguments: 0,
    })
}

// The label of a name.
pub fn name_label(
    alloc: Global,
    world: &World,
    at: Bound,
    kinds: &mut Items<VariableKind>,
) -> Result<Numbered, OutOfMemory>
    ensures label { IfOk result (λ made. made ≡ label at (length kinds.old) (length (name_kinds (seen_world world.now) at))) }
    ensures kinds { OnOk result (kinds.new ≡ kinds.old ++ plain_kind ∷ name_kinds (seen_world world.now) at) }
{
    let number = take_number(kinds)?;
    let arguments = take_bound(alloc, world, at.bound, kinds)?;
    Ok(Numbered {
        node: at,
        number,
        arguments,
    })
}

// The label of a statement that is an instance of an operation.
pub fn operation_label(
    alloc: Global,
    operation: Operation,
    at: Bound,
    kinds: &mut Items<VariableKind>,
) -> Result<Numbered, OutOfMemory>
    ensures label { IfOk result (λ made. made ≡ label at (length kinds.old) (length (scheme_of operation).kinds)) }
    ensures kinds { OnOk result (kinds.new ≡ kinds.old ++ plain_kind ∷ (scheme_of operation).kinds) }
{
    let number = take_number(kinds)?;
    let arguments = take_operation(alloc, operation, kinds)?;
    Ok(Numbered {
        node: at,
        number,
        arguments,
    })
}
