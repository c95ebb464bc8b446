// The names in a tree that are out of place wherever they stand: `par`, `refold`, and `start` where nothing may name it.
// The functions call one another as deep as the tree is, and go over lists by loops.
ghost use Rattle.std.specs.Prelude.{◌≡◌, ◌++◌, OnOk, map, flat_map};
ghost use Rattle.rw_tree.specs.Views.{itself};
ghost use Rattle.rw_tree.specs.Trees.{alternative_of, expression, guarded, local_binding, right_side, statement};
ghost use Rattle.rw_tree.specs.Declarations.{declaration};
ghost use Rattle.rw_scope_rules.specs.Nodes.{binding_nodes, body_nodes, clause_nodes, declaration_nodes, expression_nodes, side_nodes, statement_nodes};
ghost use Rattle.rw_scope_rules.specs.Names.{at_if};
ghost use Rattle.rw_start.specs.Positions.{is_stray as is_stray_name, strays};

use rw_base::{OutOfMemory, Place};
use rw_scope_rules::{Binding, Bound, Operation};
use rw_tree::{Alt, Decl, Expr, Guard, Local, Rhs, Stmt};
use sqlite_items::Boxed;

// Whether a name that is bound to this is out of place. The number is that of the declaration of `start`, if nothing may
// name it.
fn is_stray(start: Option<u32>, bound: Option<Binding>) -> bool
    ensures { result ≡ is_stray_name start bound }
{
    match bound {
        Some(Binding::Operation(Operation::Par)) => true,
        Some(Binding::Operation(Operation::Refold)) => true,
        Some(Binding::Declared(number)) => match start {
            Some(barred) => barred == number,
            None => false,
        },
        _ => false,
    }
}

// Adds the place of a name, if it is out of place.
fn in_name(start: Option<u32>, at: &Bound, places: &mut Vec<Place>) -> Result<(), OutOfMemory>
    ensures { OnOk result (places.new.items ≡ places.old.items ++ at_if (is_stray_name start at.now.bound) at.now.span.first) }
{
    if is_stray(start, at.bound) {
        places.push(at.span.first)?;
    }
    Ok(())
}

#[cycle(looking)]
pub fn in_expression(
    start: Option<u32>,
    tree: &Expr<Bound>,
    places: &mut Vec<Place>,
) -> Result<(), OutOfMemory>
    ensures { OnOk result (places.new.items ≡ places.old.items ++ strays start (expression_nodes (expression itself tree.now))) }
{
    match tree {
        Expr::Var(at, _) => in_name(start, at, places)?,
        Expr::Con(_, _) => {}
        Expr::Apply(_, head, parts) => {
            in_boxed(start, head, places)?;
            in_expressions(start, parts.as_slice(), places)?;
        }
        Expr::Tuple(_, parts) => in_expressions(start, parts.as_slice(), places)?,
        Expr::Chain(_, operands, operators) => {
            in_expressions(start, operands.as_slice(), places)?;
            in_expressions(start, operators.as_slice(), places)?;
        }
        Expr::Lambda(_, _, body) => in_boxed(start, body, places)?,
        Expr::Let(_, group, body) => {
            in_group(start, group.as_slice(), places)?;
            in_boxed(start, body, places)?;
        }
        Expr::If(_, test, yes, no) => {
            in_boxed(start, test, places)?;
            in_boxed(start, yes, places)?;
            in_boxed(start, no, places)?;
        }
        Expr::Case(_, scrutinee, rows) => {
            in_boxed(start, scrutinee, places)?;
            in_clauses(start, rows.as_slice(), places)?;
        }
        Expr::Do(_, statements) => in_statements(start, statements.as_slice(), places)?,
    }
    Ok(())
}

#[cycle(looking)]
fn in_boxed(
    start: Option<u32>,
    tree: &Boxed<Expr<Bound>>,
    places: &mut Vec<Place>,
) -> Result<(), OutOfMemory>
    ensures { OnOk result (places.new.items ≡ places.old.items ++ strays start (expression_nodes (expression itself tree.now))) }
{
    in_expression(start, tree.get(), places)
}

#[cycle(looking)]
fn in_expressions(
    start: Option<u32>,
    trees: &[Expr<Bound>],
    places: &mut Vec<Place>,
) -> Result<(), OutOfMemory>
    ensures { OnOk result (places.new.items ≡ places.old.items ++ strays start (flat_map expression_nodes (map (expression itself) trees.now))) }
{
    for tree in trees {
        in_expression(start, tree, places)?;
    }
    Ok(())
}

// Patterns name no variable that is bound elsewhere.
#[cycle(looking)]
fn in_clause(
    start: Option<u32>,
    clause: &Alt<Bound>,
    places: &mut Vec<Place>,
) -> Result<(), OutOfMemory>
    ensures { OnOk result (places.new.items ≡ places.old.items ++ strays start (clause_nodes (alternative_of itself clause.now))) }
{
    in_side(start, &clause.rhs, places)?;
    in_group(start, clause.wheres.as_slice(), places)?;
    Ok(())
}

#[cycle(looking)]
pub fn in_clauses(
    start: Option<u32>,
    clauses: &[Alt<Bound>],
    places: &mut Vec<Place>,
) -> Result<(), OutOfMemory>
    ensures { OnOk result (places.new.items ≡ places.old.items ++ strays start (flat_map clause_nodes (map (alternative_of itself) clauses.now))) }
{
    for clause in clauses {
        in_clause(start, clause, places)?;
    }
    Ok(())
}

#[cycle(looking)]
fn in_side(
    start: Option<u32>,
    side: &Rhs<Bound>,
    places: &mut Vec<Place>,
) -> Result<(), OutOfMemory>
    ensures { OnOk result (places.new.items ≡ places.old.items ++ strays start (side_nodes (right_side itself side.now))) }
{
    match side {
        Rhs::Plain(body) => in_expression(start, body, places)?,
        Rhs::Guarded(guards) => in_guards(start, guards.as_slice(), places)?,
    }
    Ok(())
}

#[cycle(looking)]
fn in_guard(
    start: Option<u32>,
    guard: &Guard<Bound>,
    places: &mut Vec<Place>,
) -> Result<(), OutOfMemory>
    ensures { OnOk result (places.new.items ≡ places.old.items ++ strays start (body_nodes (guarded itself guard.now))) }
{
    in_expression(start, &guard.test, places)?;
    in_expression(start, &guard.body, places)?;
    Ok(())
}

#[cycle(looking)]
fn in_guards(
    start: Option<u32>,
    guards: &[Guard<Bound>],
    places: &mut Vec<Place>,
) -> Result<(), OutOfMemory>
    ensures { OnOk result (places.new.items ≡ places.old.items ++ strays start (flat_map body_nodes (map (guarded itself) guards.now))) }
{
    for guard in guards {
        in_guard(start, guard, places)?;
    }
    Ok(())
}

#[cycle(looking)]
fn in_binding(
    start: Option<u32>,
    binding: &Local<Bound>,
    places: &mut Vec<Place>,
) -> Result<(), OutOfMemory>
    ensures { OnOk result (places.new.items ≡ places.old.items ++ strays start (binding_nodes (local_binding itself binding.now))) }
{
    match binding {
        Local::Sig(_, _, _) => {}
        Local::Fun(_, _, clauses) => in_clauses(start, clauses.as_slice(), places)?,
        Local::Pattern(_, bound) => in_clause(start, bound, places)?,
    }
    Ok(())
}

#[cycle(looking)]
pub fn in_group(
    start: Option<u32>,
    group: &[Local<Bound>],
    places: &mut Vec<Place>,
) -> Result<(), OutOfMemory>
    ensures { OnOk result (places.new.items ≡ places.old.items ++ strays start (flat_map binding_nodes (map (local_binding itself) group.now))) }
{
    for binding in group {
        in_binding(start, binding, places)?;
    }
    Ok(())
}

#[cycle(looking)]
fn in_statement(
    start: Option<u32>,
    tree: &Stmt<Bound>,
    places: &mut Vec<Place>,
) -> Result<(), OutOfMemory>
    ensures { OnOk result (places.new.items ≡ places.old.items ++ strays start (statement_nodes (statement itself tree.now))) }
{
    match tree {
        Stmt::Bind(_, _, body) => in_expression(start, body, places)?,
        Stmt::Let(_, group) => in_group(start, group.as_slice(), places)?,
        Stmt::Run(_, body) => in_expression(start, body, places)?,
    }
    Ok(())
}

#[cycle(looking)]
fn in_statements(
    start: Option<u32>,
    trees: &[Stmt<Bound>],
    places: &mut Vec<Place>,
) -> Result<(), OutOfMemory>
    ensures { OnOk result (places.new.items ≡ places.old.items ++ strays start (flat_map statement_nodes (map (statement itself) trees.now))) }
{
    for tree in trees {
        in_statement(start, tree, places)?;
    }
    Ok(())
}

// In the functions among some declarations.
pub fn in_decls(
    start: Option<u32>,
    decls: &[Decl<Bound>],
    places: &mut Vec<Place>,
) -> Result<(), OutOfMemory>
    ensures { OnOk result (places.new.items ≡ places.old.items ++ strays start (flat_map declaration_nodes (map (declaration itself) decls.now))) }
{
    for decl in decls {
        if let Decl::Fun(_, _, clauses) = decl {
            in_clauses(start, clauses.as_slice(), places)?;
        }
    }
    Ok(())
}
