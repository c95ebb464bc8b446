// Expressions and statements: what their types have to agree in.
ghost use Rattle.std.specs.Prelude.{◌≡◌, IfOk, OnOk, map};
ghost use Rattle.rw_tree.specs.Trees.{expression, expression_parts};
ghost use Rattle.rw_types_rules.specs.WellTyped.{ExpressionAgrees, ExpressionsAgree};
ghost use Rattle.rw_types_equations.specs.Numbered.{typed_by};
ghost use Rattle.rw_types_equations.specs.Seen.{seen_world};
ghost use Rattle.rw_types_equations.specs.Equations.{Adds};

use crate::clause::add_clauses;
use crate::equation::{equate, join, join_function, never};
use crate::group::{add_group, enter_group};
use crate::label::{number_of, numbers_of, pattern_numbers};
use crate::locals::Locals;
use crate::name::{add_bound, add_name};
use crate::pattern::{add_row, enter_row};
use crate::scheme::World;
use crate::shape::{function, tuple_of};
use crate::statement::add_statements;
use crate::written::bool_term;
use crate::{Equation, Numbered};
use rw_base::OutOfMemory;
use rw_tree::Expr;
use rw_types_solving::Term;
use sqlite_items::Items;
use std::alloc::Global;

// The types of an expression agree.
#[cycle(walking)]
pub fn add_expression(
    alloc: Global,
    tree: &Expr<Numbered>,
    world: &World,
    locals: &mut Locals,
    out: &mut Items<Equation>,
) -> Result<(), OutOfMemory>
    ensures agrees { IfOk result (λ _. Adds out.old out.new (λ t. ExpressionAgrees (seen_world world.now) (map t locals.old) (expression (typed_by t) tree.now))) }
    ensures locals { OnOk result (locals.new ≡ locals.old) }
{
    match tree {
        Expr::Var(at, _) => {
            add_name(alloc, world, locals, *at, out)?;
            Ok(())
        }
        Expr::Con(at, _) => {
            add_bound(alloc, world, *at, out)?;
            Ok(())
        }
        Expr::Apply(at, head, parts) => {
            let parts = parts.as_slice();
            let head = head.get();
            let numbers = numbers_of(alloc, parts)?;
            join_function(alloc, out, number_of(head), numbers.as_slice(), at.number)?;
            add_expression(alloc, head, world, locals, out)?;
            add_expressions(alloc, parts, world, locals, out)?;
            Ok(())
        }
        Expr::Tuple(at, parts) => {
            let parts = parts.as_slice();
            let numbers = numbers_of(alloc, parts)?;
            equate(out, at.number, tuple_of(alloc, numbers.as_slice())?)?;
            add_expressions(alloc, parts, world, locals, out)?;
            Ok(())
        }
        Expr::Chain(at, _, _) => {
            never(alloc, out, at.number)?;
            Ok(())
        }
        Expr::Lambda(at, pats, body) => {
            let pats = pats.as_slice();
            let body = body.get();
            let numbers = pattern_numbers(alloc, pats)?;
            join_function(alloc, out, at.number, numbers.as_slice(), number_of(body))?;
            add_row(alloc, world, pats, out)?;
            let outer = locals.depth();
            enter_row(locals, pats)?;
            add_expression(alloc, body, world, locals, out)?;
            locals.leave(outer);
            Ok(())
        }
        Expr::Let(at, group, body) => {
            let group = group.as_slice();
            let body = body.get();
            join(out, at.number, number_of(body))?;
            let outer = locals.depth();
            enter_group(locals, group)?;
            add_group(alloc, group, world, locals, out)?;
            add_expression(alloc, body, world, locals, out)?;
            locals.leave(outer);
            Ok(())
        }
        Expr::If(at, test, first, second) => {
            let test = test.get();
            let first = first.get();
            let second = second.get();
            equate(out, number_of(test), bool_term(alloc, world))?;
            join(out, at.number, number_of(first))?;
            join(out, at.number, number_of(second))?;
            add_expression(alloc, test, world, locals, out)?;
            add_expression(alloc, first, world, locals, out)?;
            add_expression(alloc, second, world, locals, out)?;
            Ok(())
        }
        Expr::Case(at, scrutinee, rows) => {
            let scrutinee = scrutinee.get();
            add_expression(alloc, scrutinee, world, locals, out)?;
            let type_ = function(alloc, Term::Var(number_of(scrutinee)), Term::Var(at.number))?;
            add_clauses(alloc, rows.as_slice(), &type_, world, locals, out)?;
            Ok(())
        }
        Expr::Do(at, statements) => {
            add_statements(alloc, statements.as_slice(), at.number, world, locals, out)?;
            Ok(())
        }
    }
}

// The types of expressions agree.
#[cycle(walking)]
fn add_expressions(
    alloc: Global,
    trees: &[Expr<Numbered>],
    world: &World,
    locals: &mut Locals,
    out: &mut Items<Equation>,
) -> Result<(), OutOfMemory>
    ensures agrees { IfOk result (λ _. Adds out.old out.new (λ t. ExpressionsAgree (seen_world world.now) (map t locals.old) (expression_parts (map (expression (typed_by t)) trees.now)))) }
    ensures locals { OnOk result (locals.new ≡ locals.old) }
{
    for tree in trees {
        add_expression(alloc, tree, world, locals, out)?;
    }
    Ok(())
}
