// The declared names of a declaration.
ghost use Rattle.std.specs.Prelude.{◌≡◌, ℕ, List, IfOk, map, option_to_list};
ghost use Rattle.std.specs.List.{flat_map};
ghost use Rattle.rw_tree.specs.Views.{itself};
ghost use Rattle.rw_tree.specs.Trees.{expression};
ghost use Rattle.rw_tree.specs.Declarations.{declaration};
ghost use Rattle.rw_scope_rules.specs.Nodes.{expression_node, declaration_nodes};
ghost use Rattle.rw_scope_nodes.specs.Plain.{plain_node};
ghost use Rattle.rw_types_solving.specs.Types.{Ty};
ghost use Rattle.rw_types_equations.specs.Numbered.{argument_numbers};
ghost use Rattle.specialise_rules.specs.Instances.{named_by, from_left};
ghost use Rattle.specialise_mentions.specs.Named.{named_in, seen_mention};

use crate::mention::Mention;
use rw_base::OutOfMemory;
use rw_scope_nodes::{Node, nodes_of_declaration};
use rw_scope_rules::Binding;
use rw_tree::{Decl, Expr};
use rw_types_equations::Numbered;
use std::alloc::Global;

// What a name is that carries this.
fn named(a: &Numbered) -> Option<Mention>
    ensures { (t : ℕ → Ty) → map (seen_mention t) (option_to_list result) ≡ named_by a.now.node.span.from a.now.node.bound (map t (argument_numbers a.now)) }
{
    match a.node.bound {
        Some(Binding::Declared(declaration)) => Some(Mention {
            token: a.node.span.from,
            declaration,
            first: u64::from(a.number) + 1,
            arguments: a.arguments,
        }),
        _ => None,
    }
}

// What an expression itself is.
fn named_expression(e: &Expr<Numbered>) -> Option<Mention>
    ensures { (t : ℕ → Ty) → map (seen_mention t) (option_to_list result) ≡ named_in t (expression_node (expression itself e.now)) }
{
    match e {
        Expr::Var(a, _) => named(a),
        _ => None,
    }
}

// What a node itself is.
fn named_at(node: &Node<Numbered>) -> Option<Mention>
    ensures { (t : ℕ → Ty) → map (seen_mention t) (option_to_list result) ≡ named_in t (plain_node node.now) }
{
    match node {
        Node::Expression(e) => named_expression(e),
        _ => None,
    }
}

// The declared names of a declaration, in the order of its nodes.
fn listed(alloc: Global, decl: &Decl<Numbered>) -> Result<Vec<Mention>, OutOfMemory>
    ensures { IfOk result (λ all. (t : ℕ → Ty) → map (seen_mention t) all.items ≡ flat_map (named_in t) (declaration_nodes (declaration itself decl.now))) }
{
    let nodes = nodes_of_declaration(alloc, decl)?;
    let mut all = Vec::new(alloc);
    for node in nodes.as_slice() {
        if let Some(mention) = named_at(node) {
            all.push(mention)?;
        }
    }
    Ok(all)
}

/// The declared names of a declaration from left to right by their tokens; those at the same token as they stand.
pub fn mentions(alloc: Global, decl: &Decl<Numbered>) -> Result<Vec<Mention>, OutOfMemory>
    // Whatever types the numbers have: these are the instances that the declaration names.
    ensures { IfOk result (λ all. (t : ℕ → Ty) → map (seen_mention t) all.items ≡ from_left (flat_map (named_in t) (declaration_nodes (declaration itself decl.now)))) }
{
    let mut all = listed(alloc, decl)?;
    all.sort_by_key(|mention| mention.token)?;
    Ok(all)
}
