// E08: every name is bound (Haskell 2010 Report, sections 3.2, 3.17.1, 4.1.2, 4.2.1, 4.4.1 and 4.4.2).
ghost use Rattle.std.specs.Prelude.{◌≡◌, ◌++◌, ◌&&◌, List, IfOk, OnOk, flat_map, map};
ghost use Rattle.rw_tree.specs.Views.{itself};
ghost use Rattle.rw_tree.specs.Declarations.{declaration, plain_constructor, plain_program};
ghost use Rattle.rw_tree.specs.Patterns.{pattern};
ghost use Rattle.rw_tree.specs.Trees.{expression, local_binding};
ghost use Rattle.rw_scope_rules.specs.Bindings.{bound_program};
ghost use Rattle.rw_scope_rules.specs.Names.{Bytes};
ghost use Rattle.rw_scope_rules.specs.Nodes.{binding_node, expression_node, pattern_node, program_nodes};
ghost use Rattle.rw_scope_rules.specs.Scope.{are_among, bound_to_nothing, fields_of, type_constructors, type_variables, unbound as unbound_in, unbound_in_declaration, unbound_in_node};
ghost use Rattle.rw_scope_nodes.specs.Plain.{plain_node};

use crate::gather::put_all;
use crate::known::{known_operators, known_types};
use crate::names::Names;
use crate::places::push_if;
use crate::types::{constructors_are, field_constructors_are, field_variables_are};
use rw_base::{OutOfMemory, Place, Span};
use rw_scope_nodes::{Node, nodes};
use rw_scope_rules::Bound;
use rw_tree::{DataDecl, Decl, Expr, Local, Pat, Program};
use std::alloc::Global;

// Whether each name in the fields of a data type is bound: a type, or a variable of its head.
fn fields_are_bound(alloc: Global, types: &Names, made: &DataDecl) -> Result<bool, OutOfMemory>
    ensures { IfOk result (λ bound. bound ≡ (are_among (flat_map type_constructors (fields_of (map plain_constructor made.now.constructors))) types.now && are_among (flat_map type_variables (fields_of (map plain_constructor made.now.constructors))) made.now.params)) }
{
    let mut params = Names::new(alloc);
    put_all(alloc, &mut params, made.params.as_slice())?;
    let constructors = made.constructors.as_slice();
    Ok(field_constructors_are(constructors, types) && field_variables_are(constructors, &params))
}

// A declaration that has a name that is bound to nothing.
fn see_declaration(
    alloc: Global,
    types: &Names,
    operators: &Names,
    places: &mut Vec<Place>,
    decl: &Decl<Span>,
) -> Result<(), OutOfMemory>
    ensures { OnOk result (places.new.items ≡ places.old.items ++ unbound_in_declaration types.now operators.now (declaration itself decl.now)) }
{
    match decl {
        Decl::Data(at, made) => {
            let bound = fields_are_bound(alloc, types, made)?;
            push_if(places, !bound, at.first)
        }
        Decl::Sig(at, _, written) => push_if(places, !constructors_are(written, types), at.first),
        Decl::Fixity(at, _, _, names) => {
            push_if(places, !operators.have(names.as_slice()), at.first)
        }
        _ => Ok(()),
    }
}

// Those of these declarations.
fn see_declarations(
    alloc: Global,
    types: &Names,
    operators: &Names,
    places: &mut Vec<Place>,
    decls: &[Decl<Span>],
) -> Result<(), OutOfMemory>
    ensures { OnOk result (places.new.items ≡ places.old.items ++ flat_map (unbound_in_declaration types.now operators.now) (map (declaration itself) decls.now)) }
{
    for decl in decls {
        see_declaration(alloc, types, operators, places, decl)?;
    }
    Ok(())
}

// The place of a node that names something, where that is bound to nothing.
fn see_name(places: &mut Vec<Place>, at: Bound) -> Result<(), OutOfMemory>
    ensures { OnOk result (places.new.items ≡ places.old.items ++ bound_to_nothing at at.bound) }
{
    match at.bound {
        None => places.push(at.span.first)?,
        Some(_) => {}
    }
    Ok(())
}

// That of a variable, an operator or a constructor.
fn see_expression(places: &mut Vec<Place>, tree: &Expr<Bound>) -> Result<(), OutOfMemory>
    ensures { OnOk result ((types : List Bytes) → places.new.items ≡ places.old.items ++ unbound_in_node types (expression_node (expression itself tree.now))) }
{
    match tree {
        Expr::Var(at, _) => see_name(places, *at),
        Expr::Con(at, _) => see_name(places, *at),
        _ => Ok(()),
    }
}

// That of a constructor in a pattern.
fn see_pattern(places: &mut Vec<Place>, tree: &Pat<Bound>) -> Result<(), OutOfMemory>
    ensures { OnOk result ((types : List Bytes) → places.new.items ≡ places.old.items ++ unbound_in_node types (pattern_node (pattern itself tree.now))) }
{
    match tree {
        Pat::Con(at, _, _) => see_name(places, *at),
        _ => Ok(()),
    }
}

// That of a local signature whose type has a name that is bound to nothing.
fn see_local(
    types: &Names,
    places: &mut Vec<Place>,
    local: &Local<Bound>,
) -> Result<(), OutOfMemory>
    ensures { OnOk result (places.new.items ≡ places.old.items ++ unbound_in_node types.now (binding_node (local_binding itself local.now))) }
{
    match local {
        Local::Sig(at, _, written) => {
            push_if(places, !constructors_are(written, types), at.span.first)
        }
        _ => Ok(()),
    }
}

// That of a node.
fn see_node(
    types: &Names,
    places: &mut Vec<Place>,
    node: Node<'_, Bound>,
) -> Result<(), OutOfMemory>
    ensures { OnOk result (places.new.items ≡ places.old.items ++ unbound_in_node types.now (plain_node node.entry)) }
{
    match node {
        Node::Expression(tree) => see_expression(places, tree),
        Node::Pattern(tree) => see_pattern(places, tree),
        Node::Binding(local) => see_local(types, places, local),
        _ => Ok(()),
    }
}

// Those of the nodes of a program.
fn see_inside(
    alloc: Global,
    types: &Names,
    places: &mut Vec<Place>,
    bound: &Program<Bound>,
) -> Result<(), OutOfMemory>
    ensures { OnOk result (places.new.items ≡ places.old.items ++ flat_map (unbound_in_node types.now) (program_nodes (plain_program itself bound.now))) }
{
    let found = nodes(alloc, bound)?;
    for node in found.as_slice() {
        see_node(types, places, *node)?;
    }
    Ok(())
}

/// The places at which a program breaks E08, from the program and the same program with each of its names bound, as
/// `rw_scope_binding::bind` gives it. First the declarations that have a name that is bound to nothing: a data type with a type
/// in its fields, or with a variable there that its head doesn't bind; a signature with a type; a fixity declaration with an
/// operator. Then the nodes: variables, operators and constructors, and local signatures with a type.
pub fn unbound(
    alloc: Global,
    program: &Program<Span>,
    bound: &Program<Bound>,
) -> Result<Vec<Place>, OutOfMemory>
    ensures { plain_program itself bound.now ≡ bound_program (plain_program itself program.now) → IfOk result (λ places. places.items ≡ unbound_in (plain_program itself program.now)) }
{
    let decls = program.decls.as_slice();
    let types = known_types(alloc, decls)?;
    let operators = known_operators(alloc, decls)?;
    let mut places = Vec::new(alloc);
    see_declarations(alloc, &types, &operators, &mut places, decls)?;
    see_inside(alloc, &types, &mut places, bound)?;
    Ok(places)
}
