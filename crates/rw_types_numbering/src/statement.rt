// Statements of a block: numbered. The last one is of no instance.
ghost use Rattle.std.specs.Prelude.{◌≡◌, ◌++◌, length, map, true, false, IfOk, OnOk};
ghost use Rattle.rw_tree.specs.Views.{itself};
ghost use Rattle.rw_tree.specs.Trees.{expression, run_statement, statement, statement_parts};
ghost use Rattle.rw_types_equations.specs.Seen.{seen_world};
ghost use Rattle.rw_types_numbering.specs.Slots.{statement_slots, statements_slots};
ghost use Rattle.rw_types_numbering.specs.Numbering.{numbered_statement, numbered_statements};

use crate::expr::number_expr;
use crate::group::number_group;
use crate::label::{operation_label, plain_label};
use crate::pattern::number_pattern;
use rw_base::OutOfMemory;
use rw_scope_rules::{Bound, Operation};
use rw_tree::{Expr, Stmt};
use rw_types_equations::{Numbered, World};
use rw_types_rules::VariableKind;
use sqlite_items::Items;
use std::alloc::Global;

// An expression alone at the end of a block.
#[cycle(numbering)]
fn number_last(
    alloc: Global,
    world: &World,
    at: Bound,
    body: &Expr<Bound>,
    kinds: &mut Items<VariableKind>,
) -> Result<Stmt<Numbered>, OutOfMemory>
    ensures tree { IfOk result (λ made. statement itself made ≡ numbered_statement (seen_world world.now) true (length kinds.old) (run_statement at (expression itself body.now))) }
    ensures kinds { OnOk result (kinds.new ≡ kinds.old ++ statement_slots (seen_world world.now) true (run_statement at (expression itself body.now))) }
{
    let at = plain_label(at, kinds)?;
    let body = number_expr(alloc, world, body, kinds)?;
    Ok(Stmt::Run(at, body))
}

// An expression alone before another statement.
#[cycle(numbering)]
fn number_run(
    alloc: Global,
    world: &World,
    at: Bound,
    body: &Expr<Bound>,
    kinds: &mut Items<VariableKind>,
) -> Result<Stmt<Numbered>, OutOfMemory>
    ensures tree { IfOk result (λ made. statement itself made ≡ numbered_statement (seen_world world.now) false (length kinds.old) (run_statement at (expression itself body.now))) }
    ensures kinds { OnOk result (kinds.new ≡ kinds.old ++ statement_slots (seen_world world.now) false (run_statement at (expression itself body.now))) }
{
    let at = operation_label(alloc, Operation::Then, at, kinds)?;
    let body = number_expr(alloc, world, body, kinds)?;
    Ok(Stmt::Run(at, body))
}

// A statement, the last of its block or another.
#[cycle(numbering)]
fn number_statement(
    alloc: Global,
    world: &World,
    last: bool,
    tree: &Stmt<Bound>,
    kinds: &mut Items<VariableKind>,
) -> Result<Stmt<Numbered>, OutOfMemory>
    ensures tree { IfOk result (λ made. statement itself made ≡ numbered_statement (seen_world world.now) last (length kinds.old) (statement itself tree.now)) }
    ensures kinds { OnOk result (kinds.new ≡ kinds.old ++ statement_slots (seen_world world.now) last (statement itself tree.now)) }
{
    match tree {
        Stmt::Bind(at, pat, body) => {
            let at = operation_label(alloc, Operation::Bind, *at, kinds)?;
            let pat = number_pattern(alloc, world, pat, kinds)?;
            let body = number_expr(alloc, world, body, kinds)?;
            Ok(Stmt::Bind(at, pat, body))
        }
        Stmt::Let(at, locals) => {
            let at = plain_label(*at, kinds)?;
            let locals = number_group(alloc, world, locals.as_slice(), kinds)?;
            Ok(Stmt::Let(at, locals))
        }
        Stmt::Run(at, body) => {
            if last {
                number_last(alloc, world, *at, body, kinds)
            } else {
                number_run(alloc, world, *at, body, kinds)
            }
        }
    }
}

// The statements of a block.
#[cycle(numbering)]
pub fn number_statements(
    alloc: Global,
    world: &World,
    trees: &[Stmt<Bound>],
    kinds: &mut Items<VariableKind>,
) -> Result<Items<Stmt<Numbered>>, OutOfMemory>
    ensures trees { IfOk result (λ made. statement_parts (map (statement itself) made) ≡ numbered_statements (seen_world world.now) (length kinds.old) (statement_parts (map (statement itself) trees.now))) }
    ensures kinds { OnOk result (kinds.new ≡ kinds.old ++ statements_slots (seen_world world.now) (statement_parts (map (statement itself) trees.now))) }
{
    let mut made = Items::new(alloc);
    for (i, tree) in trees.iter().enumerate() {
        let last = i + 1 == trees.len();
        made.push(number_statement(alloc, world, last, tree, kinds)?)?;
    }
    Ok(made)
}
