// E12: let groups in which a binding depends on itself (of Haskell 2010 Report, section 3.12, the groups without
// recursion).
ghost use Rattle.std.specs.Prelude.{◌≡◌, ◌++◌, IfOk, OnOk, map, flat_map};
ghost use Rattle.rw_tree.specs.Views.{itself};
ghost use Rattle.rw_tree.specs.Trees.{local_binding};
ghost use Rattle.rw_tree.specs.Declarations.{plain_program};
ghost use Rattle.rw_scope_rules.specs.Nodes.{program_nodes};
ghost use Rattle.rw_scope_rules.specs.Groups.{binding_place, cyclic_in_node, never_placed};
ghost use Rattle.rw_scope_nodes.specs.Plain.{plain_node};

use crate::graph::waiting;
use rw_base::{OutOfMemory, Place};
use rw_scope_graph::stuck;
use rw_scope_nodes::{Node, nodes};
use rw_scope_rules::Bound;
use rw_tree::{Local, Program};
use std::alloc::Global;

// Where a binding stands.
fn place_of(binding: &Local<Bound>) -> Place
    ensures { result ≡ binding_place (local_binding itself binding.now) }
{
    match binding {
        Local::Sig(at, _, _) => at.span.first,
        Local::Fun(at, _, _) => at.span.first,
        Local::Pattern(at, _) => at.span.first,
    }
}

// The places of the bindings of a group that are never placed in an order.
fn in_group(
    alloc: Global,
    bindings: &[Local<Bound>],
    places: &mut Vec<Place>,
) -> Result<(), OutOfMemory>
    ensures { OnOk result (places.new.items ≡ places.old.items ++ map binding_place (never_placed (map (local_binding itself) bindings.now))) }
{
    if bindings.is_empty() {
        return Ok(());
    }
    let graph = waiting(alloc, bindings)?;
    let marks = stuck(alloc, graph.as_slice())?;
    for (i, binding) in bindings.iter().enumerate() {
        if marks[i] {
            places.push(place_of(binding))?;
        }
    }
    Ok(())
}

// Those of a node, if it is a group.
fn in_node(
    alloc: Global,
    node: &Node<'_, Bound>,
    places: &mut Vec<Place>,
) -> Result<(), OutOfMemory>
    ensures { OnOk result (places.new.items ≡ places.old.items ++ cyclic_in_node (plain_node node.now)) }
{
    match node {
        Node::Group(bindings) => in_group(alloc, bindings, places),
        _ => Ok(()),
    }
}

/// The places of the local bindings that depend on themselves, in a tree whose names are bound: for each let group those
/// that are left when, again and again, a binding is taken away that mentions no name which a binding of the group that is
/// left binds, in the order of the group; the groups in the order of the program.
pub fn cyclic(alloc: Global, bound: &Program<Bound>) -> Result<Vec<Place>, OutOfMemory>
    ensures { IfOk result (λ places. places.items ≡ flat_map cyclic_in_node (program_nodes (plain_program itself bound.now))) }
{
    let found = nodes(alloc, bound)?;
    let mut places = Vec::new(alloc);
    for node in found.as_slice() {
        in_node(alloc, node, &mut places)?;
    }
    Ok(places)
}
