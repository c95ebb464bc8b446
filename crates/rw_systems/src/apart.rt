// From an expression to the parts of its system.
ghost use Rattle.std.specs.Prelude.{◌≡◌, IfOk, map, []};
ghost use Rattle.rw_tree.specs.Trees.{expression_parts};
ghost use Rattle.rw_meaning.specs.Systems.{system_with, with_systems, system_of};
ghost use Rattle.rw_systems.specs.Shown.{shown, seen, argument};
ghost use Rattle.rw_systems.specs.Heads.{joins, heads_system as heads_system_of};

use crate::binds::Binds;
use crate::operated::operated;
use crate::parts::{Argument, Parts};
use rw_base::OutOfMemory;
use rw_scope_rules::{Binding, Operation};
use rw_tree::Expr;
use sqlite_items::Items;
use std::alloc::Global;

fn is_joining(bound: Option<Binding>) -> bool
    ensures { result ≡ joins bound }
{
    match bound {
        Some(Binding::Operation(Operation::Par)) | Some(Binding::Operation(Operation::Refold)) =>
            true,
        _ => false,
    }
}

// Whether an application is one of `par` or `refold`.
fn heads_system<A: Binds>(expression: &Expr<A>) -> bool
    ensures { result ≡ heads_system_of A.bound (seen expression.now) }
{
    match expression {
        Expr::Apply(_, head, _) => heads_system(head.get()),
        Expr::Var(at, _) => is_joining(at.binding()),
        _ => false,
    }
}

// The parts of an expression. Only an application of `par` or `refold` is taken apart.
#[cycle(splitting)]
fn parts_of<'a, A: Binds>(alloc: Global, whole: &'a Expr<A>) -> Result<Parts<'a, A>, OutOfMemory>
    ensures { IfOk result (λ parts. shown parts ≡ system_of A.bound (seen whole.now)) }
{
    if !heads_system(whole) {
        return Ok(Parts::Leaf(whole));
    }
    match whole {
        Expr::Apply(_, head, parts) => {
            let arguments = arguments_of(alloc, parts.as_slice())?;
            without_arguments(alloc, head.get(), whole, arguments)
        }
        Expr::Var(at, _) => operated(alloc, whole, at.binding(), Items::new(alloc)),
        _ => Ok(Parts::Leaf(whole)),
    }
}

// The parts of `whole`, of which `expression` is left when these arguments are taken off.
#[cycle(splitting)]
fn without_arguments<'a, A: Binds>(
    alloc: Global,
    expression: &'a Expr<A>,
    whole: &'a Expr<A>,
    arguments: Items<Argument<'a, A>>,
) -> Result<Parts<'a, A>, OutOfMemory>
    ensures { IfOk result (λ parts. shown parts ≡ system_with A.bound (seen whole.now) (seen expression.now) (map argument arguments.entry)) }
{
    match expression {
        Expr::Apply(_, head, parts) => {
            let mut all = arguments_of(alloc, parts.as_slice())?;
            all.append(arguments)?;
            without_arguments(alloc, head.get(), whole, all)
        }
        Expr::Var(at, _) => operated(alloc, whole, at.binding(), arguments),
        _ => Ok(Parts::Leaf(whole)),
    }
}

// Arguments with their own parts.
#[cycle(splitting)]
fn arguments_of<'a, A: Binds>(
    alloc: Global,
    parts: &'a [Expr<A>],
) -> Result<Items<Argument<'a, A>>, OutOfMemory>
    ensures { IfOk result (λ all. map argument all ≡ with_systems A.bound (expression_parts (map seen parts.now)) []) }
{
    let mut all = Items::new(alloc);
    for expression in parts {
        let parts = parts_of(alloc, expression)?;
        all.push(Argument { expression, parts })?;
    }
    Ok(all)
}

/// The parts of an expression, which is the body of `start`: an application of `par` to two expressions, or of `refold` to
/// three, also by `$` and in parentheses, is taken apart, and any other expression is a device. They are read inside what
/// is bound after the `where` of `start`.
pub fn split<'a, A: Binds>(
    alloc: Global,
    expression: &'a Expr<A>,
) -> Result<Parts<'a, A>, OutOfMemory>
    ensures { IfOk result (λ parts. shown parts ≡ system_of A.bound (seen expression.now)) }
{
    parts_of(alloc, expression)
}
