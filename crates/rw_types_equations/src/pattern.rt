// Patterns: what their types have to agree in, and the names that they bind.
ghost use Rattle.std.specs.Prelude.{IfOk, OnOk};
ghost use Rattle.rw_tree.specs.Patterns.{pattern, patterns};
ghost use Rattle.rw_types_rules.specs.TypedTrees.{pattern_locals, row_locals};
ghost use Rattle.rw_types_rules.specs.WellTyped.{PatternAgrees, RowAgrees};
ghost use Rattle.rw_types_equations.specs.Numbered.{typed_by};
ghost use Rattle.rw_types_equations.specs.Seen.{seen_world};
ghost use Rattle.rw_types_equations.specs.Equations.{Adds, Entered};

use crate::equation::equate;
use crate::label::pattern_numbers;
use crate::locals::Locals;
use crate::name::add_bound_match;
use crate::shape::tuple_of;
use crate::{Equation, Numbered, World};
use rw_base::OutOfMemory;
use rw_tree::Pat;
use sqlite_items::Items;
use std::alloc::Global;

// The types of a pattern agree.
#[cycle(agreeing)]
pub fn add_pattern(
    alloc: Global,
    world: &World,
    tree: &Pat<Numbered>,
    out: &mut Items<Equation>,
) -> Result<(), OutOfMemory>
    ensures { IfOk result (λ _. Adds out.old out.new (λ t. PatternAgrees (seen_world world.now) (pattern (typed_by t) tree.now))) }
{
    match tree {
        Pat::Wild(_) => Ok(()),
        Pat::Var(_, _) => Ok(()),
        Pat::Con(at, _, parts) => {
            let parts = parts.as_slice();
            let numbers = pattern_numbers(alloc, parts)?;
            add_bound_match(alloc, world, *at, numbers.as_slice(), out)?;
            add_row(alloc, world, parts, out)?;
            Ok(())
        }
        Pat::Tuple(at, parts) => {
            let parts = parts.as_slice();
            let numbers = pattern_numbers(alloc, parts)?;
            equate(out, at.number, tuple_of(alloc, numbers.as_slice())?)?;
            add_row(alloc, world, parts, out)?;
            Ok(())
        }
    }
}

// The types of each pattern agree.
#[cycle(agreeing)]
pub fn add_row(
    alloc: Global,
    world: &World,
    trees: &[Pat<Numbered>],
    out: &mut Items<Equation>,
) -> Result<(), OutOfMemory>
    ensures { IfOk result (λ _. Adds out.old out.new (λ t. RowAgrees (seen_world world.now) (patterns (typed_by t) trees.now))) }
{
    for tree in trees {
        add_pattern(alloc, world, tree, out)?;
    }
    Ok(())
}

// Binds the variables of a pattern.
#[cycle(entering)]
pub fn enter_pattern(locals: &mut Locals, tree: &Pat<Numbered>) -> Result<(), OutOfMemory>
    ensures { OnOk result (Entered locals.old locals.new (λ t. pattern_locals (pattern (typed_by t) tree.now))) }
{
    match tree {
        Pat::Wild(_) => Ok(()),
        Pat::Var(at, _) => {
            locals.enter(at.number)?;
            Ok(())
        }
        Pat::Con(_, _, parts) => {
            enter_row(locals, parts.as_slice())?;
            Ok(())
        }
        Pat::Tuple(_, parts) => {
            enter_row(locals, parts.as_slice())?;
            Ok(())
        }
    }
}

// Binds the variables of patterns.
#[cycle(entering)]
pub fn enter_row(locals: &mut Locals, trees: &[Pat<Numbered>]) -> Result<(), OutOfMemory>
    ensures { OnOk result (Entered locals.old locals.new (λ t. row_locals (patterns (typed_by t) trees.now))) }
{
    for tree in trees {
        enter_pattern(locals, tree)?;
    }
    Ok(())
}
