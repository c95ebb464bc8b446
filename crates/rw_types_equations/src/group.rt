// Local bindings, and the names that they bind.
ghost use Rattle.std.specs.Prelude.{◌≡◌, IfOk, OnOk, map};
ghost use Rattle.rw_tree.specs.Trees.{alternative_of, local_binding, binding_parts};
ghost use Rattle.rw_types_rules.specs.TypedTrees.{binding_locals, group_locals};
ghost use Rattle.rw_types_rules.specs.WellTyped.{BindingAgrees, BoundPatternAgrees, GroupAgrees};
ghost use Rattle.rw_types_equations.specs.Numbered.{typed_by};
ghost use Rattle.rw_types_equations.specs.Seen.{seen_world};
ghost use Rattle.rw_types_equations.specs.Equations.{Adds, Entered};

use crate::clause::{add_clauses, add_side};
use crate::equation::{equate, join};
use crate::label::pattern_numbers;
use crate::locals::Locals;
use crate::name::{add_only, add_signed};
use crate::pattern::{add_row, enter_row};
use crate::scheme::World;
use crate::written::written_type;
use crate::{Equation, Numbered};
use rw_base::OutOfMemory;
use rw_tree::{Alt, Local};
use rw_types_solving::Term;
use sqlite_items::Items;
use std::alloc::Global;

// Binds the names of a local binding.
fn enter_binding(locals: &mut Locals, tree: &Local<Numbered>) -> Result<(), OutOfMemory>
    ensures { OnOk result (Entered locals.old locals.new (λ t. binding_locals (local_binding (typed_by t) tree.now))) }
{
    match tree {
        Local::Sig(_, _, _) => Ok(()),
        Local::Fun(at, _, _) => {
            locals.enter(at.number)?;
            Ok(())
        }
        Local::Pattern(_, bound) => {
            enter_row(locals, bound.pats.as_slice())?;
            Ok(())
        }
    }
}

// Binds the names of a group.
pub fn enter_group(locals: &mut Locals, trees: &[Local<Numbered>]) -> Result<(), OutOfMemory>
    ensures { OnOk result (Entered locals.old locals.new (λ t. group_locals (binding_parts (map (local_binding (typed_by t)) trees.now)))) }
{
    for tree in trees {
        enter_binding(locals, tree)?;
    }
    Ok(())
}

// The types of a binding agree, whose group's names are bound.
#[cycle(walking)]
fn add_local_binding(
    alloc: Global,
    tree: &Local<Numbered>,
    world: &World,
    locals: &mut Locals,
    out: &mut Items<Equation>,
) -> Result<(), OutOfMemory>
    ensures agrees { IfOk result (λ _. Adds out.old out.new (λ t. BindingAgrees (seen_world world.now) (map t locals.old) (local_binding (typed_by t) tree.now))) }
    ensures locals { OnOk result (locals.new ≡ locals.old) }
{
    match tree {
        Local::Sig(at, _, written) => {
            equate(
                out,
                at.number,
                written_type(alloc, written, world.types.as_slice(), &[])?,
            )?;
            add_signed(alloc, locals, *at, out)?;
            Ok(())
        }
        Local::Fun(at, _, clauses) => {
            let type_ = Term::Var(at.number);
            add_clauses(alloc, clauses.as_slice(), &type_, world, locals, out)?;
            Ok(())
        }
        Local::Pattern(at, bound) => {
            add_bound_pattern(alloc, at.number, bound, world, locals, out)?;
            Ok(())
        }
    }
}

// The types of a bound pattern agree.
#[cycle(walking)]
fn add_bound_pattern(
    alloc: Global,
    number: u32,
    tree: &Alt<Numbered>,
    world: &World,
    locals: &mut Locals,
    out: &mut Items<Equation>,
) -> Result<(), OutOfMemory>
    ensures agrees { IfOk result (λ _. Adds out.old out.new (λ t. BoundPatternAgrees (seen_world world.now) (map t locals.old) (t number) (alternative_of (typed_by t) tree.now))) }
    ensures locals { OnOk result (locals.new ≡ locals.old) }
{
    let pats = tree.pats.as_slice();
    let wheres = tree.wheres.as_slice();
    let parts = pattern_numbers(alloc, pats)?;
    join(out, tree.at.number, number)?;
    add_only(alloc, parts.as_slice(), number, out)?;
    add_row(alloc, world, pats, out)?;
    let outer = locals.depth();
    enter_group(locals, wheres)?;
    add_side(alloc, &tree.rhs, &[], number, world, locals, out)?;
    add_group(alloc, wheres, world, locals, out)?;
    locals.leave(outer);
    Ok(())
}

// The types of a group agree, whose names are bound.
#[cycle(walking)]
pub fn add_group(
    alloc: Global,
    trees: &[Local<Numbered>],
    world: &World,
    locals: &mut Locals,
    out: &mut Items<Equation>,
) -> Result<(), OutOfMemory>
    ensures agrees { IfOk result (λ _. Adds out.old out.new (λ t. GroupAgrees (seen_world world.now) (map t locals.old) (binding_parts (map (local_binding (typed_by t)) trees.now)))) }
    ensures locals { OnOk result (locals.new ≡ locals.old) }
{
    for tree in trees {
        add_local_binding(alloc, tree, world, locals, out)?;
    }
    Ok(())
}
