// E07: one declaration for a name, inside functions and as a whole (Haskell 2010 Report, sections 3.3, 3.12, 3.14, 3.17.1
// and 4.4.3).
ghost use Rattle.std.specs.Prelude.{◌≡◌, ◌++◌, IfOk, OnOk, flat_map, map};
ghost use Rattle.rw_tree.specs.Views.{itself};
ghost use Rattle.rw_tree.specs.Declarations.{plain_program};
ghost use Rattle.rw_tree.specs.Trees.{binding_parts, expression, local_binding, statement};
ghost use Rattle.rw_scope_rules.specs.Nodes.{expression_node, group_node, program_nodes, statement_node};
ghost use Rattle.rw_scope_rules.specs.Scope.{declared_twice as twice_in, repeated_in_node};
ghost use Rattle.rw_scope_nodes.specs.Plain.{plain_node};

use crate::top::repeated_at_top;
use crate::variables::{see_bindings, see_one_pattern, see_one_row, see_signatures};
use rw_base::{OutOfMemory, Place, Span};
use rw_scope_nodes::{Node, nodes};
use rw_tree::{Expr, Local, Program, Stmt};
use std::alloc::Global;

// The patterns of a lambda.
fn see_expression(
    alloc: Global,
    places: &mut Vec<Place>,
    tree: &Expr<Span>,
) -> Result<(), OutOfMemory>
    ensures { OnOk result (places.new.items ≡ places.old.items ++ repeated_in_node (expression_node (expression itself tree.now))) }
{
    match tree {
        Expr::Lambda(_, pats, _) => see_one_row(alloc, places, pats.as_slice()),
        _ => Ok(()),
    }
}

// The pattern of a statement.
fn see_statement(
    alloc: Global,
    places: &mut Vec<Place>,
    tree: &Stmt<Span>,
) -> Result<(), OutOfMemory>
    ensures { OnOk result (places.new.items ≡ places.old.items ++ repeated_in_node (statement_node (statement itself tree.now))) }
{
    match tree {
        Stmt::Bind(_, pat, _) => see_one_pattern(alloc, places, pat),
        _ => Ok(()),
    }
}

// What a let group binds, and its signatures.
fn see_group(
    alloc: Global,
    places: &mut Vec<Place>,
    locals: &[Local<Span>],
) -> Result<(), OutOfMemory>
    ensures { OnOk result (places.new.items ≡ places.old.items ++ repeated_in_node (group_node (binding_parts (map (local_binding itself) locals.now)))) }
{
    see_bindings(alloc, places, locals)?;
    see_signatures(alloc, places, locals)
}

// What a node binds in one place.
fn see_node(alloc: Global, places: &mut Vec<Place>, node: Node<'_, Span>) -> Result<(), OutOfMemory>
    ensures { OnOk result (places.new.items ≡ places.old.items ++ repeated_in_node (plain_node node.entry)) }
{
    match node {
        Node::Expression(tree) => see_expression(alloc, places, tree),
        Node::Clause(row) => see_one_row(alloc, places, row.pats.as_slice()),
        Node::Group(locals) => see_group(alloc, places, locals),
        Node::Statement(tree) => see_statement(alloc, places, tree),
        _ => Ok(()),
    }
}

/// The places inside functions at which a name is declared again: a variable in the patterns of one clause, alternative,
/// lambda or statement, and a name or a signature in one let group. They come node by node in the order of `rw_scope_nodes`; a
/// name is reported at its later declaration, and a name that hides one from outside isn't declared again.
pub fn repeated_in_functions(
    alloc: Global,
    program: &Program<Span>,
) -> Result<Vec<Place>, OutOfMemory>
    ensures { IfOk result (λ places. places.items ≡ flat_map repeated_in_node (program_nodes (plain_program itself program.now))) }
{
    let mut places = Vec::new(alloc);
    let found = nodes(alloc, program)?;
    for node in found.as_slice() {
        see_node(alloc, &mut places, *node)?;
    }
    Ok(places)
}

/// The places at which a program breaks E07: those of the top level and of the heads of data types, and then those inside
/// functions.
pub fn declared_twice(alloc: Global, program: &Program<Span>) -> Result<Vec<Place>, OutOfMemory>
    ensures { IfOk result (λ places. places.items ≡ twice_in (plain_program itself program.now)) }
{
    let mut places = repeated_at_top(alloc, program.decls.as_slice())?;
    let inside = repeated_in_functions(alloc, program)?;
    places.extend_from_slice(inside.as_slice())?;
    Ok(places)
}
