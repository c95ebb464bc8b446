// What `par` and `refold` make of their arguments.
ghost use Rattle.std.specs.Prelude.{◌≡◌, IfOk, map, Some};
ghost use Rattle.rw_core.specs.Systems.{leaf as leaf_of};
ghost use Rattle.rw_meaning.specs.Systems.{operated as operated_of};
ghost use Rattle.rw_scope_rules.specs.declared.binding.Binding.TheVariants.{Operation as Operates};
ghost use Rattle.rw_scope_rules.specs.declared.binding.Operation.TheVariants.{Par, Refold};
ghost use Rattle.rw_systems.specs.Shown.{shown, seen, argument};

use crate::parts::{Argument, Parts};
use rw_base::OutOfMemory;
use rw_scope_rules::{Binding, Operation};
use rw_tree::Expr;
use sqlite_items::{Boxed, Items};
use std::alloc::Global;

// Two devices side by side.
fn paired<'a, A>(
    alloc: Global,
    whole: &'a Expr<A>,
    mut arguments: Items<Argument<'a, A>>,
) -> Result<Parts<'a, A>, OutOfMemory>
    ensures { IfOk result (λ parts. shown parts ≡ operated_of (seen whole.now) (Some (Operates Par)) (map argument arguments.entry)) }
{
    if arguments.len() != 2 {
        return Ok(Parts::Leaf(whole));
    }
    let second = arguments.remove(1);
    let first = arguments.remove(0);
    let first = Boxed::new(alloc, first.parts)?;
    Ok(Parts::Par(first, Boxed::new(alloc, second.parts)?))
}

// A device that is fed back.
fn fed_back<'a, A>(
    alloc: Global,
    whole: &'a Expr<A>,
    mut arguments: Items<Argument<'a, A>>,
) -> Result<Parts<'a, A>, OutOfMemory>
    ensures { IfOk result (λ parts. shown parts ≡ operated_of (seen whole.now) (Some (Operates Refold)) (map argument arguments.entry)) }
{
    if arguments.len() != 3 {
        return Ok(Parts::Leaf(whole));
    }
    let device = arguments.remove(2);
    let input = arguments.remove(1).expression;
    let output = arguments.remove(0).expression;
    Ok(Parts::Refold(output, input, Boxed::new(alloc, device.parts)?))
}

/// What a name with this binding makes of its arguments; `whole` is the application.
pub fn operated<'a, A>(
    alloc: Global,
    whole: &'a Expr<A>,
    bound: Option<Binding>,
    arguments: Items<Argument<'a, A>>,
) -> Result<Parts<'a, A>, OutOfMemory>
    ensures { IfOk result (λ parts. shown parts ≡ operated_of (seen whole.now) bound (map argument arguments.entry)) }
{
    match bound {
        Some(Binding::Operation(Operation::Par)) => paired(alloc, whole, arguments),
        Some(Binding::Operation(Operation::Refold)) => fed_back(alloc, whole, arguments),
        _ => Ok(Parts::Leaf(whole)),
    }
}
