// E09: the clauses of one name have one number of patterns (Haskell 2010 Report, section 4.4.3.1).
ghost use Rattle.std.specs.Prelude.{◌≡◌, ◌++◌, OnOk, flat_map, map, nat_eq, not};
ghost use Rattle.rw_tree.specs.Views.{itself};
ghost use Rattle.rw_tree.specs.Declarations.{declaration, plain_program};
ghost use Rattle.rw_tree.specs.Trees.{alternative_of, local_binding};
ghost use Rattle.rw_scope_rules.specs.Names.{at_if};
ghost use Rattle.rw_scope_rules.specs.Nodes.{binding_node, program_nodes};
ghost use Rattle.rw_scope_rules.specs.Scope.{arity, clause_place, uneven, uneven_at_top, uneven_in_node};
ghost use Rattle.rw_scope_nodes.specs.Plain.{plain_node};

use crate::places::push_if;
use rw_base::{OutOfMemory, Place, Span};
use rw_scope_nodes::{Node, nodes};
use rw_tree::{Alt, Decl, Local, Program};
use std::alloc::Global;

// The clauses that have another number of patterns than this.
fn see_others(
    places: &mut Vec<Place>,
    count: usize,
    clauses: &[Alt<Span>],
) -> Result<(), OutOfMemory>
    ensures { OnOk result (places.new.items ≡ places.old.items ++ flat_map (λ d. at_if (not (nat_eq (arity d) count)) (clause_place d)) (map (alternative_of itself) clauses.now)) }
{
    for clause in clauses {
        push_if(places, clause.pats.len() != count, clause.at.first)?;
    }
    Ok(())
}

// The clauses of one name that have another number of patterns than the first.
fn see_uneven(places: &mut Vec<Place>, clauses: &[Alt<Span>]) -> Result<(), OutOfMemory>
    ensures { OnOk result (places.new.items ≡ places.old.items ++ uneven (map (alternative_of itself) clauses.now)) }
{
    match clauses.split_first() {
        None => Ok(()),
        Some((first, rest)) => see_others(places, first.pats.len(), rest),
    }
}

// Those of the functions among these declarations.
pub fn see_at_top(places: &mut Vec<Place>, decls: &[Decl<Span>]) -> Result<(), OutOfMemory>
    ensures { OnOk result (places.new.items ≡ places.old.items ++ flat_map uneven_at_top (map (declaration itself) decls.now)) }
{
    for decl in decls {
        if let Decl::Fun(_, _, clauses) = decl {
            see_uneven(places, clauses.as_slice())?;
        }
    }
    Ok(())
}

// Those of a local function.
fn see_local(places: &mut Vec<Place>, local: &Local<Span>) -> Result<(), OutOfMemory>
    ensures { OnOk result (places.new.items ≡ places.old.items ++ uneven_in_node (binding_node (local_binding itself local.now))) }
{
    match local {
        Local::Fun(_, _, clauses) => see_uneven(places, clauses.as_slice()),
        _ => Ok(()),
    }
}

// Those of a node: a local function has clauses.
fn see_node(places: &mut Vec<Place>, node: Node<'_, Span>) -> Result<(), OutOfMemory>
    ensures { OnOk result (places.new.items ≡ places.old.items ++ uneven_in_node (plain_node node.entry)) }
{
    match node {
        Node::Binding(local) => see_local(places, local),
        _ => Ok(()),
    }
}

// Those of the local functions of a program.
pub fn see_inside(
    alloc: Global,
    places: &mut Vec<Place>,
    program: &Program<Span>,
) -> Result<(), OutOfMemory>
    ensures { OnOk result (places.new.items ≡ places.old.items ++ flat_map uneven_in_node (program_nodes (plain_program itself program.now))) }
{
    let found = nodes(alloc, program)?;
    for node in found.as_slice() {
        see_node(places, *node)?;
    }
    Ok(())
}
