// Clauses and alternatives, and their right sides.
ghost use Rattle.std.specs.Prelude.{◌≡◌, IfOk, OnOk, map};
ghost use Rattle.rw_types_solving.specs.Types.{apply, plain};
ghost use Rattle.rw_tree.specs.Trees.{alternative_of, alternative_parts, right_side, guarded, body_parts};
ghost use Rattle.rw_types_rules.specs.WellTyped.{ClauseAgrees, ClausesAgree, SideAgrees, BodyAgrees, BodiesAgree};
ghost use Rattle.rw_types_equations.specs.Numbered.{typed_by};
ghost use Rattle.rw_types_equations.specs.Seen.{seen_world};
ghost use Rattle.rw_types_equations.specs.Equations.{Adds};

use crate::equation::{equate, join_function};
use crate::expr::add_expression;
use crate::group::{add_group, enter_group};
use crate::label::{number_of, pattern_numbers};
use crate::locals::Locals;
use crate::pattern::{add_row, enter_row};
use crate::scheme::World;
use crate::written::bool_term;
use crate::{Equation, Numbered};
use rw_base::OutOfMemory;
use rw_tree::{Alt, Guard, Rhs};
use rw_types_solving::{Term, copied};
use sqlite_items::Items;
use std::alloc::Global;

// The types of a clause agree.
#[cycle(walking)]
pub fn add_clause(
    alloc: Global,
    tree: &Alt<Numbered>,
    world: &World,
    locals: &mut Locals,
    out: &mut Items<Equation>,
) -> Result<(), OutOfMemory>
    ensures agrees { IfOk result (λ _. Adds out.old out.new (λ t. ClauseAgrees (seen_world world.now) (map t locals.old) (alternative_of (typed_by t) tree.now))) }
    ensures locals { OnOk result (locals.new ≡ locals.old) }
{
    let pats = tree.pats.as_slice();
    let wheres = tree.wheres.as_slice();
    let from = pattern_numbers(alloc, pats)?;
    add_row(alloc, world, pats, out)?;
    let outer = locals.depth();
    enter_row(locals, pats)?;
    enter_group(locals, wheres)?;
    add_side(
        alloc,
        &tree.rhs,
        from.as_slice(),
        tree.at.number,
        world,
        locals,
        out,
    )?;
    add_group(alloc, wheres, world, locals, out)?;
    locals.leave(outer);
    Ok(())
}

// The types of clauses agree, and each is of this type.
#[cycle(walking)]
pub fn add_clauses(
    alloc: Global,
    trees: &[Alt<Numbered>],
    type_: &Term,
    world: &World,
    locals: &mut Locals,
    out: &mut Items<Equation>,
) -> Result<(), OutOfMemory>
    ensures agrees { IfOk result (λ _. Adds out.old out.new (λ t. ClausesAgree (seen_world world.now) (map t locals.old) (apply t (plain type_.now)) (alternative_parts (map (alternative_of (typed_by t)) trees.now)))) }
    ensures locals { OnOk result (locals.new ≡ locals.old) }
{
    for tree in trees {
        equate(out, tree.at.number, copied(alloc, type_)?)?;
        add_clause(alloc, tree, world, locals, out)?;
    }
    Ok(())
}

// The types of a right side agree: its bodies, as functions of these arguments, are of one type.
#[cycle(walking)]
pub fn add_side(
    alloc: Global,
    tree: &Rhs<Numbered>,
    from: &[u32],
    number: u32,
    world: &World,
    locals: &mut Locals,
    out: &mut Items<Equation>,
) -> Result<(), OutOfMemory>
    ensures agrees { IfOk result (λ _. Adds out.old out.new (λ t. SideAgrees (seen_world world.now) (map t locals.old) (map t from.now) (t number) (right_side (typed_by t) tree.now))) }
    ensures locals { OnOk result (locals.new ≡ locals.old) }
{
    match tree {
        Rhs::Plain(body) => {
            join_function(alloc, out, number, from, number_of(body))?;
            add_expression(alloc, body, world, locals, out)?;
            Ok(())
        }
        Rhs::Guarded(bodies) => {
            add_bodies(alloc, bodies.as_slice(), from, number, world, locals, out)?;
            Ok(())
        }
    }
}

// The types of a guarded body agree.
#[cycle(walking)]
fn add_body(
    alloc: Global,
    tree: &Guard<Numbered>,
    from: &[u32],
    number: u32,
    world: &World,
    locals: &mut Locals,
    out: &mut Items<Equation>,
) -> Result<(), OutOfMemory>
    ensures agrees { IfOk result (λ _. Adds out.old out.new (λ t. BodyAgrees (seen_world world.now) (map t locals.old) (map t from.now) (t number) (guarded (typed_by t) tree.now))) }
    ensures locals { OnOk result (locals.new ≡ locals.old) }
{
    equate(out, number_of(&tree.test), bool_term(alloc, world))?;
    join_function(alloc, out, number, from, number_of(&tree.body))?;
    add_expression(alloc, &tree.test, world, locals, out)?;
    add_expression(alloc, &tree.body, world, locals, out)?;
    Ok(())
}

// The types of guarded bodies agree.
#[cycle(walking)]
fn add_bodies(
    alloc: Global,
    trees: &[Guard<Numbered>],
    from: &[u32],
    number: u32,
    world: &World,
    locals: &mut Locals,
    out: &mut Items<Equation>,
) -> Result<(), OutOfMemory>
    ensures agrees { IfOk result (λ _. Adds out.old out.new (λ t. BodiesAgree (seen_world world.now) (map t locals.old) (map t from.now) (t number) (body_parts (map (guarded (typed_by t)) trees.now)))) }
    ensures locals { OnOk result (locals.new ≡ locals.old) }
{
    for tree in trees {
        add_body(alloc, tree, from, number, world, locals, out)?;
    }
    Ok(())
}
