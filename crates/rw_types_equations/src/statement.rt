// Statements of a block.
ghost use Rattle.std.specs.Prelude.{◌≡◌, IfOk, OnOk, map, true, false};
ghost use Rattle.rw_tree.specs.Trees.{statement, statement_parts};
ghost use Rattle.rw_types_rules.specs.TypedTrees.{statement_locals};
ghost use Rattle.rw_types_rules.specs.WellTyped.{StatementAgrees, StatementsAgree};
ghost use Rattle.rw_types_equations.specs.Numbered.{typed_by};
ghost use Rattle.rw_types_equations.specs.Seen.{seen_world};
ghost use Rattle.rw_types_equations.specs.Equations.{Adds, Entered};

use crate::equation::{join, never};
use crate::expr::add_expression;
use crate::group::{add_group, enter_group};
use crate::label::{number_of, pattern_number};
use crate::locals::Locals;
use crate::pattern::{add_pattern, enter_pattern};
use crate::scheme::World;
use crate::step::{add_bind, add_last, add_then};
use crate::{Equation, Numbered};
use rw_base::OutOfMemory;
use rw_tree::Stmt;
use sqlite_items::Items;
use std::alloc::Global;

// The types of the last statement of a block agree.
#[cycle(walking)]
fn add_last_statement(
    alloc: Global,
    tree: &Stmt<Numbered>,
    block: u32,
    world: &World,
    locals: &mut Locals,
    out: &mut Items<Equation>,
) -> Result<(), OutOfMemory>
    ensures agrees { IfOk result (λ _. Adds out.old out.new (λ t. StatementAgrees (seen_world world.now) (map t locals.old) (t block) true (statement (typed_by t) tree.now))) }
    ensures locals { OnOk result (locals.new ≡ locals.old) }
{
    match tree {
        Stmt::Bind(at, _, _) => {
            never(alloc, out, at.number)?;
            Ok(())
        }
        Stmt::Let(at, _) => {
            never(alloc, out, at.number)?;
            Ok(())
        }
        Stmt::Run(at, body) => {
            add_last(alloc, *at, number_of(body), block, out)?;
            add_expression(alloc, body, world, locals, out)?;
            Ok(())
        }
    }
}

// The types of a statement before another one agree; its names are bound then.
#[cycle(walking)]
fn add_statement(
    alloc: Global,
    tree: &Stmt<Numbered>,
    block: u32,
    world: &World,
    locals: &mut Locals,
    out: &mut Items<Equation>,
) -> Result<(), OutOfMemory>
    ensures agrees { IfOk result (λ _. Adds out.old out.new (λ t. StatementAgrees (seen_world world.now) (map t locals.old) (t block) false (statement (typed_by t) tree.now))) }
    ensures locals { OnOk result (Entered locals.old locals.new (λ t. statement_locals (statement (typed_by t) tree.now))) }
{
    match tree {
        Stmt::Bind(at, pat, body) => {
            add_bind(alloc, *at, number_of(body), pattern_number(pat), block, out)?;
            add_pattern(alloc, world, pat, out)?;
            add_expression(alloc, body, world, locals, out)?;
            enter_pattern(locals, pat)?;
            Ok(())
        }
        Stmt::Let(at, group) => {
            let group = group.as_slice();
            join(out, at.number, block)?;
            enter_group(locals, group)?;
            add_group(alloc, group, world, locals, out)?;
            Ok(())
        }
        Stmt::Run(at, body) => {
            add_then(alloc, *at, number_of(body), block, out)?;
            add_expression(alloc, body, world, locals, out)?;
            Ok(())
        }
    }
}

// The types of the statements of a block agree.
#[cycle(walking)]
pub fn add_statements(
    alloc: Global,
    trees: &[Stmt<Numbered>],
    block: u32,
    world: &World,
    locals: &mut Locals,
    out: &mut Items<Equation>,
) -> Result<(), OutOfMemory>
    ensures agrees { IfOk result (λ _. Adds out.old out.new (λ t. StatementsAgree (seen_world world.now) (map t locals.old) (t block) (statement_parts (map (statement (typed_by t)) trees.now)))) }
    ensures locals { OnOk result (locals.new ≡ locals.old) }
{
    let outer = locals.depth();
    for (i, tree) in trees.iter().enumerate() {
        if i + 1 == trees.len() {
            add_last_statement(alloc, tree, block, world, locals, out)?;
        } else {
            add_statement(alloc, tree, block, world, locals, out)?;
        }
    }
    locals.leave(outer);
    Ok(())
}
