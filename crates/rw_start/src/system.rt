// The parts of a system: the names in them that are out of place, and where its devices begin.
ghost use Rattle.std.specs.Prelude.{◌≡◌, ◌++◌, OnOk, IfOk, map};
ghost use Rattle.std.specs.Option.{option_map};
ghost use Rattle.rw_tree.specs.Views.{itself};
ghost use Rattle.rw_tree.specs.Trees.{expression};
ghost use Rattle.rw_systems.specs.Shown.{shown};
ghost use Rattle.rw_start.specs.Positions.{leaves, inner_nodes, barred as barred_by, strays, beginning as beginning_of};

use crate::names::in_expression;
use rw_base::{OutOfMemory, Place};
use rw_scope_rules::Bound;
use rw_systems::Parts;
use rw_tree::Expr;

// A number of 32 bits: more declarations are want of memory.
fn number_of(at: usize) -> Result<u32, OutOfMemory>
    ensures { IfOk result (λ number. number ≡ at) }
{
    if at > u32::MAX as usize {
        return Err(OutOfMemory);
    }
    Ok(at as u32)
}

// The number of the declaration of `start`, if nothing may name it.
pub fn barred(number: usize, parts: &Parts<'_, Bound>) -> Result<Option<u32>, OutOfMemory>
    ensures { IfOk result (λ barred. barred ≡ barred_by number (shown parts.now)) }
{
    match parts {
        Parts::Leaf(_) => Ok(None),
        Parts::Par(_, _) => Ok(Some(number_of(number)?)),
        Parts::Refold(_, _, _) => Ok(Some(number_of(number)?)),
    }
}

// Adds the places of the names in a system that are out of place.
pub fn in_parts(
    start: Option<u32>,
    parts: &Parts<'_, Bound>,
    places: &mut Vec<Place>,
) -> Result<(), OutOfMemory>
    ensures { OnOk result (places.new.items ≡ places.old.items ++ strays start (inner_nodes (shown parts.now))) }
{
    match parts {
        Parts::Leaf(tree) => in_expression(start, tree, places)?,
        Parts::Par(first, second) => {
            in_parts(start, first.get(), places)?;
            in_parts(start, second.get(), places)?;
        }
        Parts::Refold(output, input, device) => {
            in_expression(start, output, places)?;
            in_expression(start, input, places)?;
            in_parts(start, device.get(), places)?;
        }
    }
    Ok(())
}

// Where an expression begins.
fn beginning(tree: &Expr<Bound>) -> Place
    ensures { result ≡ beginning_of (expression itself tree.now) }
{
    let at = match tree {
        Expr::Var(at, _) => at,
        Expr::Con(at, _) => at,
        Expr::Apply(at, _, _) => at,
        Expr::Tuple(at, _) => at,
        Expr::Chain(at, _, _) => at,
        Expr::Lambda(at, _, _) => at,
        Expr::Let(at, _, _) => at,
        Expr::If(at, _, _, _) => at,
        Expr::Case(at, _, _) => at,
        Expr::Do(at, _) => at,
    };
    at.span.first
}

// Adds where each device of a system begins.
pub fn add_beginnings(parts: &Parts<'_, Bound>, places: &mut Vec<Place>) -> Result<(), OutOfMemory>
    ensures { OnOk result (places.new.items ≡ places.old.items ++ map beginning_of (leaves (shown parts.now))) }
{
    match parts {
        Parts::Leaf(tree) => places.push(beginning(tree))?,
        Parts::Par(first, second) => {
            add_beginnings(first.get(), places)?;
            add_beginnings(second.get(), places)?;
        }
        Parts::Refold(_, _, device) => add_beginnings(device.get(), places)?,
    }
    Ok(())
}
