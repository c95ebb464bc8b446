// Clauses and alternatives, and their right sides: numbered.
ghost use Rattle.std.specs.Prelude.{◌≡◌, ◌++◌, length, map, IfOk, OnOk};
ghost use Rattle.rw_tree.specs.Views.{itself};
ghost use Rattle.rw_tree.specs.Patterns.{patterns};
ghost use Rattle.rw_tree.specs.Trees.{alternative, alternative_of, alternative_parts, binding_parts, body_parts, guarded, local_binding, right_side};
ghost use Rattle.rw_types_equations.specs.Seen.{seen_world};
ghost use Rattle.rw_types_numbering.specs.Slots.{all_clauses_slots, bodies_slots, body_slots, clause_slots, clauses_slots, side_slots};
ghost use Rattle.rw_types_numbering.specs.Numbering.{numbered_all_clauses, numbered_bodies, numbered_body, numbered_clause, numbered_clauses, numbered_side};

use crate::expr::number_expr;
use crate::group::number_group;
use crate::label::plain_label;
use crate::pattern::number_row;
use rw_base::OutOfMemory;
use rw_scope_rules::Bound;
use rw_tree::{Alt, Guard, Local, Pat, Rhs};
use rw_types_equations::{Numbered, World};
use rw_types_rules::VariableKind;
use sqlite_items::Items;
use std::alloc::Global;

// A numbered clause of these parts.
fn clause_of(
    at: Numbered,
    pats: Items<Pat<Numbered>>,
    rhs: Rhs<Numbered>,
    wheres: Items<Local<Numbered>>,
) -> Alt<Numbered>
    ensures { alternative_of itself result ≡ alternative at (patterns itself pats) (right_side itself rhs) (binding_parts (map (local_binding itself) wheres)) }
{
    Alt {
        at,
        pats,
        rhs,
        wheres,
    }
}

// A clause.
#[cycle(numbering)]
pub fn number_clause(
    alloc: Global,
    world: &World,
    tree: &Alt<Bound>,
    kinds: &mut Items<VariableKind>,
) -> Result<Alt<Numbered>, OutOfMemory>
    ensures tree { IfOk result (λ made. alternative_of itself made ≡ numbered_clause (seen_world world.now) (length kinds.old) (alternative_of itself tree.now)) }
    ensures kinds { OnOk result (kinds.new ≡ kinds.old ++ clause_slots (seen_world world.now) (alternative_of itself tree.now)) }
{
    let at = plain_label(tree.at, kinds)?;
    let pats = number_row(alloc, world, tree.pats.as_slice(), kinds)?;
    let rhs = number_side(alloc, world, &tree.rhs, kinds)?;
    let wheres = number_group(alloc, world, tree.wheres.as_slice(), kinds)?;
    Ok(clause_of(at, pats, rhs, wheres))
}

#[cycle(numbering)]
pub fn number_clauses(
    alloc: Global,
    world: &World,
    trees: &[Alt<Bound>],
    kinds: &mut Items<VariableKind>,
) -> Result<Items<Alt<Numbered>>, OutOfMemory>
    ensures trees { IfOk result (λ made. map (alternative_of itself) made ≡ numbered_all_clauses (seen_world world.now) (length kinds.old) (map (alternative_of itself) trees.now)) }
    ensures parts { IfOk result (λ made. alternative_parts (map (alternative_of itself) made) ≡ numbered_clauses (seen_world world.now) (length kinds.old) (alternative_parts (map (alternative_of itself) trees.now))) }
    ensures kinds { OnOk result (kinds.new ≡ kinds.old ++ all_clauses_slots (seen_world world.now) (map (alternative_of itself) trees.now)) }
    ensures parts_kinds { OnOk result (kinds.new ≡ kinds.old ++ clauses_slots (seen_world world.now) (alternative_parts (map (alternative_of itself) trees.now))) }
{
    let mut made = Items::new(alloc);
    for tree in trees {
        made.push(number_clause(alloc, world, tree, kinds)?)?;
    }
    Ok(made)
}

#[cycle(numbering)]
fn number_side(
    alloc: Global,
    world: &World,
    tree: &Rhs<Bound>,
    kinds: &mut Items<VariableKind>,
) -> Result<Rhs<Numbered>, OutOfMemory>
    ensures tree { IfOk result (λ made. right_side itself made ≡ numbered_side (seen_world world.now) (length kinds.old) (right_side itself tree.now)) }
    ensures kinds { OnOk result (kinds.new ≡ kinds.old ++ side_slots (seen_world world.now) (right_side itself tree.now)) }
{
    match tree {
        Rhs::Plain(body) => {
            let body = number_expr(alloc, world, body, kinds)?;
            Ok(Rhs::Plain(body))
        }
        Rhs::Guarded(guards) => {
            let guards = number_guards(alloc, world, guards.as_slice(), kinds)?;
            Ok(Rhs::Guarded(guards))
        }
    }
}

#[cycle(numbering)]
fn number_guard(
    alloc: Global,
    world: &World,
    tree: &Guard<Bound>,
    kinds: &mut Items<VariableKind>,
) -> Result<Guard<Numbered>, OutOfMemory>
    ensures tree { IfOk result (λ made. guarded itself made ≡ numbered_body (seen_world world.now) (length kinds.old) (guarded itself tree.now)) }
    ensures kinds { OnOk result (kinds.new ≡ kinds.old ++ body_slots (seen_world world.now) (guarded itself tree.now)) }
{
    let test = number_expr(alloc, world, &tree.test, kinds)?;
    let body = number_expr(alloc, world, &tree.body, kinds)?;
    Ok(Guard { test, body })
}

#[cycle(numbering)]
fn number_guards(
    alloc: Global,
    world: &World,
    trees: &[Guard<Bound>],
    kinds: &mut Items<VariableKind>,
) -> Result<Items<Guard<Numbered>>, OutOfMemory>
    ensures trees { IfOk result (λ made. body_parts (map (guarded itself) made) ≡ numbered_bodies (seen_world world.now) (length kinds.old) (body_parts (map (guarded itself) trees.now))) }
    ensures kinds { OnOk result (kinds.new ≡ kinds.old ++ bodies_slots (seen_world world.now) (body_parts (map (guarded itself) trees.now))) }
{
    let mut made = Items::new(alloc);
    for tree in trees {
        made.push(number_guard(alloc, world, tree, kinds)?)?;
    }
    Ok(made)
}
