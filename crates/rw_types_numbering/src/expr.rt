// Expressions: numbered.
ghost use Rattle.std.specs.Prelude.{◌≡◌, ◌++◌, length, map, IfOk, OnOk};
ghost use Rattle.rw_tree.specs.Views.{itself};
ghost use Rattle.rw_tree.specs.Trees.{expression, expression_parts};
ghost use Rattle.rw_types_equations.specs.Seen.{seen_world};
ghost use Rattle.rw_types_numbering.specs.Slots.{expression_slots, expressions_slots};
ghost use Rattle.rw_types_numbering.specs.Numbering.{numbered_expression, numbered_expressions};

use crate::clause::number_clauses;
use crate::group::number_group;
use crate::label::{name_label, plain_label};
use crate::pattern::number_row;
use crate::statement::number_statements;
use rw_base::OutOfMemory;
use rw_scope_rules::Bound;
use rw_tree::Expr;
use rw_types_equations::{Numbered, World};
use rw_types_rules::VariableKind;
use sqlite_items::{Boxed, Items};
use std::alloc::Global;

// An expression.
#[cycle(numbering)]
pub fn number_expr(
    alloc: Global,
    world: &World,
    tree: &Expr<Bound>,
    kinds: &mut Items<VariableKind>,
) -> Result<Expr<Numbered>, OutOfMemory>
    ensures tree { IfOk result (λ made. expression itself made ≡ numbered_expression (seen_world world.now) (length kinds.old) (expression itself tree.now)) }
    ensures kinds { OnOk result (kinds.new ≡ kinds.old ++ expression_slots (seen_world world.now) (expression itself tree.now)) }
{
    match tree {
        Expr::Var(at, name) => {
            let at = name_label(alloc, world, *at, kinds)?;
            Ok(Expr::Var(at, name.copied(alloc)?))
        }
        Expr::Con(at, name) => {
            let at = name_label(alloc, world, *at, kinds)?;
            Ok(Expr::Con(at, name.copied(alloc)?))
        }
        Expr::Apply(at, head, parts) => {
            let at = plain_label(*at, kinds)?;
            let head = number_boxed(alloc, world, head, kinds)?;
            let parts = number_exprs(alloc, world, parts.as_slice(), kinds)?;
            Ok(Expr::Apply(at, head, parts))
        }
        Expr::Tuple(at, parts) => {
            let at = plain_label(*at, kinds)?;
            let parts = number_exprs(alloc, world, parts.as_slice(), kinds)?;
            Ok(Expr::Tuple(at, parts))
        }
        Expr::Chain(at, operands, operators) => {
            let at = plain_label(*at, kinds)?;
            let operands = number_exprs(alloc, world, operands.as_slice(), kinds)?;
            let operators = number_exprs(alloc, world, operators.as_slice(), kinds)?;
            Ok(Expr::Chain(at, operands, operators))
        }
        Expr::Lambda(at, pats, body) => {
            let at = plain_label(*at, kinds)?;
            let pats = number_row(alloc, world, pats.as_slice(), kinds)?;
            let body = number_boxed(alloc, world, body, kinds)?;
            Ok(Expr::Lambda(at, pats, body))
        }
        Expr::Let(at, locals, body) => {
            let at = plain_label(*at, kinds)?;
            let locals = number_group(alloc, world, locals.as_slice(), kinds)?;
            let body = number_boxed(alloc, world, body, kinds)?;
            Ok(Expr::Let(at, locals, body))
        }
        Expr::If(at, test, yes, no) => {
            let at = plain_label(*at, kinds)?;
            let test = number_boxed(alloc, world, test, kinds)?;
            let yes = number_boxed(alloc, world, yes, kinds)?;
            let no = number_boxed(alloc, world, no, kinds)?;
            Ok(Expr::If(at, test, yes, no))
        }
        Expr::Case(at, scrutinee, clauses) => {
            let at = plain_label(*at, kinds)?;
            let scrutinee = number_boxed(alloc, world, scrutinee, kinds)?;
            let clauses = number_clauses(alloc, world, clauses.as_slice(), kinds)?;
            Ok(Expr::Case(at, scrutinee, clauses))
        }
        Expr::Do(at, statements) => {
            let at = plain_label(*at, kinds)?;
            let statements = number_statements(alloc, world, statements.as_slice(), kinds)?;
            Ok(Expr::Do(at, statements))
        }
    }
}

#[cycle(numbering)]
fn number_boxed(
    alloc: Global,
    world: &World,
    tree: &Boxed<Expr<Bound>>,
    kinds: &mut Items<VariableKind>,
) -> Result<Boxed<Expr<Numbered>>, OutOfMemory>
    ensures tree { IfOk result (λ made. expression itself made ≡ numbered_expression (seen_world world.now) (length kinds.old) (expression itself tree.now)) }
    ensures kinds { OnOk result (kinds.new ≡ kinds.old ++ expression_slots (seen_world world.now) (expression itself tree.now)) }
{
    Ok(Boxed::new(alloc, number_expr(alloc, world, tree.get(), kinds)?)?)
}

#[cycle(numbering)]
fn number_exprs(
    alloc: Global,
    world: &World,
    trees: &[Expr<Bound>],
    kinds: &mut Items<VariableKind>,
) -> Result<Items<Expr<Numbered>>, OutOfMemory>
    ensures trees { IfOk result (λ made. expression_parts (map (expression itself) made) ≡ numbered_expressions (seen_world world.now) (length kinds.old) (expression_parts (map (expression itself) trees.now))) }
    ensures kinds { OnOk result (kinds.new ≡ kinds.old ++ expressions_slots (seen_world world.now) (expression_parts (map (expression itself) trees.now))) }
{
    let mut made = Items::new(alloc);
    for tree in trees {
        made.push(number_expr(alloc, world, tree, kinds)?)?;
    }
    Ok(made)
}
