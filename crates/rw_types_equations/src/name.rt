// Names at nodes: each is of an instance of its scheme.
ghost use Rattle.std.specs.Prelude.{◌≡◌, ◌<◌, ℕ, IfOk, map, length, get_or, slice_get, None, option_copied, option_map, [], ◌∷◌, Some};
ghost use Rattle.rw_types_solving.specs.Types.{Ty, plains, apply};
ghost use Rattle.rw_types_rules.specs.Schemes.{scheme_at};
ghost use Rattle.rw_types_rules.specs.WellTyped.{given, IsInstance, IsMatched, IsSigned, NameAgrees};
ghost use Rattle.rw_types_equations.specs.Numbered.{argument_numbers, typed_by};
ghost use Rattle.rw_types_equations.specs.Seen.{seen_scheme, seen_option, seen_world};
ghost use Rattle.rw_types_equations.specs.Equations.{Adds};

use crate::equation::{equate, equate_function, join, never};
use crate::locals::Locals;
use crate::operations::operation_scheme;
use crate::scheme::{all_renewed, argument_names, renewed};
use crate::{Equation, Numbered, Scheme, World};
use rw_base::OutOfMemory;
use rw_scope_rules::Binding;
use rw_types_solving::Term;
use sqlite_items::Items;
use std::alloc::Global;

// The node is of an instance of this scheme.
pub fn add_instance(
    alloc: Global,
    scheme: &Scheme,
    at: Numbered,
    out: &mut Items<Equation>,
) -> Result<(), OutOfMemory>
    ensures { IfOk result (λ _. Adds out.old out.new (λ t. IsInstance (Some (seen_scheme scheme.now)) (map t (argument_numbers at)) (t at.number))) }
{
    if at.arguments as usize != scheme.kinds.len() {
        never(alloc, out, at.number)?;
        return Ok(());
    }
    let made = argument_names(alloc, at)?;
    let names = made.as_slice();
    let takes = all_renewed(alloc, scheme.takes.as_slice(), names)?;
    let gives = renewed(alloc, &scheme.gives, names)?;
    equate_function(out, at.number, takes, gives)?;
    Ok(())
}

// Each of these variables is a field's type, at these names.
fn add_fields(
    alloc: Global,
    takes: &[Term],
    names: &[u32],
    parts: &[u32],
    out: &mut Items<Equation>,
) -> Result<(), OutOfMemory>
    requires { length parts.now ≡ length takes.now }
    ensures { IfOk result (λ _. Adds out.old out.new (λ t. map t parts.now ≡ map (apply (given (map t names.now))) (plains takes.now))) }
{
    for (i, take) in takes.iter().enumerate() {
        let field = renewed(alloc, take, names)?;
        equate(out, parts[i], field)?;
    }
    Ok(())
}

// The constructor of this scheme is matched at the node, with these variables for its fields.
fn add_match(
    alloc: Global,
    scheme: &Scheme,
    at: Numbered,
    parts: &[u32],
    out: &mut Items<Equation>,
) -> Result<(), OutOfMemory>
    ensures { IfOk result (λ _. Adds out.old out.new (λ t. IsMatched (Some (seen_scheme scheme.now)) (map t (argument_numbers at)) (map t parts.now) (t at.number))) }
{
    if at.arguments as usize != scheme.kinds.len() || parts.len() != scheme.takes.len() {
        never(alloc, out, at.number)?;
        return Ok(());
    }
    let made = argument_names(alloc, at)?;
    let names = made.as_slice();
    add_fields(alloc, scheme.takes.as_slice(), names, parts, out)?;
    let gives = renewed(alloc, &scheme.gives, names)?;
    equate(out, at.number, gives)?;
    Ok(())
}

// The function that this declaration declares.
#[tactic(auto, using(crate::proofs::Kept::looked_up))]
pub fn declared_at(world: &World, n: u32) -> Option<&Scheme>
    ensures { seen_option (option_copied result) ≡ get_or (seen_world world.now).declared n None }
{
    match world.declared.get(n as usize) {
        Some(Some(scheme)) => Some(scheme),
        Some(None) => None,
        None => None,
    }
}

// The constructor with this place of the data type that this declaration declares.
#[tactic(auto, using(crate::proofs::Kept::looked_up))]
pub fn constructed_at(world: &World, n: u32, place: u32) -> Option<&Scheme>
    ensures { seen_option (option_copied result) ≡ slice_get (get_or (seen_world world.now).constructed n []) place }
{
    match world.constructed.get(n as usize) {
        Some(schemes) => schemes.get(place as usize),
        None => None,
    }
}

// The node is of an instance, if there is a scheme.
fn add_instance_if(
    alloc: Global,
    scheme: Option<&Scheme>,
    at: Numbered,
    out: &mut Items<Equation>,
) -> Result<(), OutOfMemory>
    ensures { IfOk result (λ _. Adds out.old out.new (λ t. IsInstance (seen_option (option_copied scheme.entry)) (map t (argument_numbers at)) (t at.number))) }
{
    match scheme {
        Some(scheme) => add_instance(alloc, scheme, at, out),
        None => never(alloc, out, at.number),
    }
}

// The constructor is matched, if there is one.
fn add_match_if(
    alloc: Global,
    scheme: Option<&Scheme>,
    at: Numbered,
    parts: &[u32],
    out: &mut Items<Equation>,
) -> Result<(), OutOfMemory>
    ensures { IfOk result (λ _. Adds out.old out.new (λ t. IsMatched (seen_option (option_copied scheme.entry)) (map t (argument_numbers at)) (map t parts.now) (t at.number))) }
{
    match scheme {
        Some(scheme) => add_match(alloc, scheme, at, parts, out),
        None => never(alloc, out, at.number),
    }
}

// The node is of an instance of what has this binding.
fn add_binding(
    alloc: Global,
    world: &World,
    binding: Binding,
    at: Numbered,
    out: &mut Items<Equation>,
) -> Result<(), OutOfMemory>
    ensures { IfOk result (λ _. Adds out.old out.new (λ t. IsInstance (scheme_at (seen_world world.now) (Some binding)) (map t (argument_numbers at)) (t at.number))) }
{
    match binding {
        Binding::Declared(n) => add_instance_if(alloc, declared_at(world, n), at, out),
        Binding::Operation(operation) => {
            let scheme = operation_scheme(alloc, operation)?;
            add_instance(alloc, &scheme, at, out)
        }
        Binding::Constructor(n, place) => {
            add_instance_if(alloc, constructed_at(world, n, place), at, out)
        }
        Binding::Local(_) => never(alloc, out, at.number),
    }
}

// The node is of an instance of what it is bound to.
pub fn add_bound(
    alloc: Global,
    world: &World,
    at: Numbered,
    out: &mut Items<Equation>,
) -> Result<(), OutOfMemory>
    ensures { IfOk result (λ _. Adds out.old out.new (λ t. IsInstance (scheme_at (seen_world world.now) at.node.bound) (map t (argument_numbers at)) (t at.number))) }
{
    match at.node.bound {
        Some(binding) => add_binding(alloc, world, binding, at, out),
        None => never(alloc, out, at.number),
    }
}

// What has this binding is matched at the node, with these variables for its fields.
fn add_binding_match(
    alloc: Global,
    world: &World,
    binding: Binding,
    at: Numbered,
    parts: &[u32],
    out: &mut Items<Equation>,
) -> Result<(), OutOfMemory>
    ensures { IfOk result (λ _. Adds out.old out.new (λ t. IsMatched (scheme_at (seen_world world.now) (Some binding)) (map t (argument_numbers at)) (map t parts.now) (t at.number))) }
{
    match binding {
        Binding::Declared(n) => add_match_if(alloc, declared_at(world, n), at, parts, out),
        Binding::Operation(operation) => {
            let scheme = operation_scheme(alloc, operation)?;
            add_match(alloc, &scheme, at, parts, out)
        }
        Binding::Constructor(n, place) => {
            add_match_if(alloc, constructed_at(world, n, place), at, parts, out)
        }
        Binding::Local(_) => never(alloc, out, at.number),
    }
}

// What the node is bound to is matched there, with these variables for its fields.
pub fn add_bound_match(
    alloc: Global,
    world: &World,
    at: Numbered,
    parts: &[u32],
    out: &mut Items<Equation>,
) -> Result<(), OutOfMemory>
    ensures { IfOk result (λ _. Adds out.old out.new (λ t. IsMatched (scheme_at (seen_world world.now) at.node.bound) (map t (argument_numbers at)) (map t parts.now) (t at.number))) }
{
    match at.node.bound {
        Some(binding) => add_binding_match(alloc, world, binding, at, parts, out),
        None => never(alloc, out, at.number),
    }
}

// The node has the type of this binder, if there is one.
fn add_binder(
    alloc: Global,
    binder: Option<u32>,
    at: Numbered,
    out: &mut Items<Equation>,
) -> Result<(), OutOfMemory>
    ensures { IfOk result (λ _. Adds out.old out.new (λ t. option_map t binder ≡ Some (t at.number))) }
{
    match binder {
        Some(number) => {
            join(out, number, at.number)?;
            Ok(())
        }
        None => {
            never(alloc, out, at.number)?;
            Ok(())
        }
    }
}

// A name has its binder's type where it is local, and else an instance of what has this binding.
fn add_named(
    alloc: Global,
    world: &World,
    locals: &Locals,
    binding: Binding,
    at: Numbered,
    out: &mut Items<Equation>,
) -> Result<(), OutOfMemory>
    ensures { IfOk result (λ _. Adds out.old out.new (λ t. NameAgrees (seen_world world.now) (map t locals.now) (Some binding) (typed_by t at))) }
{
    match binding {
        Binding::Local(k) => {
            add_binder(alloc, locals.binder(k), at, out)?;
            Ok(())
        }
        Binding::Declared(_) => {
            add_binding(alloc, world, binding, at, out)?;
            Ok(())
        }
        Binding::Operation(_) => {
            add_binding(alloc, world, binding, at, out)?;
            Ok(())
        }
        Binding::Constructor(_, _) => {
            add_binding(alloc, world, binding, at, out)?;
            Ok(())
        }
    }
}

// A name has its binder's type where it is local, and else an instance of what it is bound to.
pub fn add_name(
    alloc: Global,
    world: &World,
    locals: &Locals,
    at: Numbered,
    out: &mut Items<Equation>,
) -> Result<(), OutOfMemory>
    ensures { IfOk result (λ _. Adds out.old out.new (λ t. NameAgrees (seen_world world.now) (map t locals.now) at.node.bound (typed_by t at))) }
{
    match at.node.bound {
        Some(binding) => {
            add_named(alloc, world, locals, binding, at, out)?;
            Ok(())
        }
        None => {
            never(alloc, out, at.number)?;
            Ok(())
        }
    }
}

// The type of a local signature is that of the name with this binding.
fn add_signed_by(
    alloc: Global,
    locals: &Locals,
    binding: Binding,
    at: Numbered,
    out: &mut Items<Equation>,
) -> Result<(), OutOfMemory>
    ensures { IfOk result (λ _. Adds out.old out.new (λ t. IsSigned (map t locals.now) (Some binding) (t at.number))) }
{
    match binding {
        Binding::Local(k) => {
            add_binder(alloc, locals.binder(k), at, out)?;
            Ok(())
        }
        Binding::Declared(_) => Ok(()),
        Binding::Operation(_) => Ok(()),
        Binding::Constructor(_, _) => Ok(()),
    }
}

// The type of a local signature is that of the name that it is for, if it is for one.
pub fn add_signed(
    alloc: Global,
    locals: &Locals,
    at: Numbered,
    out: &mut Items<Equation>,
) -> Result<(), OutOfMemory>
    ensures { IfOk result (λ _. Adds out.old out.new (λ t. IsSigned (map t locals.now) at.node.bound (t at.number))) }
{
    match at.node.bound {
        Some(binding) => {
            add_signed_by(alloc, locals, binding, at, out)?;
            Ok(())
        }
        None => Ok(()),
    }
}

// There is one of these variables, and it is the other.
pub fn add_only(
    alloc: Global,
    parts: &[u32],
    number: u32,
    out: &mut Items<Equation>,
) -> Result<(), OutOfMemory>
    ensures { IfOk result (λ _. Adds out.old out.new (λ t. map t parts.now ≡ t number ∷ [])) }
{
    if parts.len() != 1 {
        never(alloc, out, number)?;
        return Ok(());
    }
    join(out, parts[0], number)?;
    Ok(())
}
