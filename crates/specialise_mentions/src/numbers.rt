// The numbers of a declaration's nodes.
ghost use Rattle.std.specs.Prelude.{◌≡◌, ◌++◌, IfOk, OnOk, option_to_list};
ghost use Rattle.std.specs.List.{flat_map};
ghost use Rattle.rw_tree.specs.Views.{itself};
ghost use Rattle.rw_tree.specs.Patterns.{pattern};
ghost use Rattle.rw_tree.specs.Trees.{expression, local_binding};
ghost use Rattle.rw_tree.specs.Declarations.{declaration};
ghost use Rattle.rw_scope_rules.specs.Nodes.{binding_node, declaration_nodes};
ghost use Rattle.rw_scope_nodes.specs.Plain.{plain_node};
ghost use Rattle.rw_types_rules.specs.TypedTrees.{expression_label, pattern_label};
ghost use Rattle.specialise_mentions.specs.Typed.{numbers_at, numbers_in};

use rw_base::OutOfMemory;
use rw_scope_nodes::{Node, nodes_of_declaration};
use rw_tree::{Decl, Expr, Local, Pat};
use rw_types_equations::Numbered;
use std::alloc::Global;

#[tactic(auto, using(rw_types_equations::proofs::Forms::expression_forms))]
fn of_expression(tree: &Expr<Numbered>) -> u32
    ensures { result ≡ (expression_label (expression itself tree.now)).number }
{
    match tree {
        Expr::Var(at, _) => at.number,
        Expr::Con(at, _) => at.number,
        Expr::Apply(at, _, _) => at.number,
        Expr::Tuple(at, _) => at.number,
        Expr::Chain(at, _, _) => at.number,
        Expr::Lambda(at, _, _) => at.number,
        Expr::Let(at, _, _) => at.number,
        Expr::If(at, _, _, _) => at.number,
        Expr::Case(at, _, _) => at.number,
        Expr::Do(at, _) => at.number,
    }
}

#[tactic(auto, using(rw_types_equations::proofs::Forms::pattern_forms))]
fn of_pattern(tree: &Pat<Numbered>) -> u32
    ensures { result ≡ (pattern_label (pattern itself tree.now)).number }
{
    match tree {
        Pat::Wild(at) => at.number,
        Pat::Var(at, _) => at.number,
        Pat::Con(at, _, _) => at.number,
        Pat::Tuple(at, _) => at.number,
    }
}

// A signature has none.
fn of_binding(tree: &Local<Numbered>) -> Option<u32>
    ensures { option_to_list result ≡ numbers_at (binding_node (local_binding itself tree.now)) }
{
    match tree {
        Local::Sig(_, _, _) => None,
        Local::Fun(at, _, _) => Some(at.number),
        Local::Pattern(at, _) => Some(at.number),
    }
}

// A group and a statement have none.
fn number_at(node: &Node<Numbered>) -> Option<u32>
    ensures { option_to_list result ≡ numbers_at (plain_node node.now) }
{
    match node {
        Node::Expression(tree) => Some(of_expression(tree)),
        Node::Pattern(tree) => Some(of_pattern(tree)),
        Node::Clause(tree) => Some(tree.at.number),
        Node::Group(_) => None,
        Node::Binding(tree) => of_binding(tree),
        Node::Statement(_) => None,
    }
}

// Appends the numbers of the nodes of a declaration.
fn add_numbers(alloc: Global, decl: &Decl<Numbered>, all: &mut Vec<u32>) -> Result<(), OutOfMemory>
    ensures { OnOk result (all.new.items ≡ all.old.items ++ flat_map numbers_at (declaration_nodes (declaration itself decl.now))) }
{
    let nodes = nodes_of_declaration(alloc, decl)?;
    for node in nodes.as_slice() {
        if let Some(number) = number_at(node) {
            all.push(number)?;
        }
    }
    Ok(())
}

/// The numbers of a function and of its nodes that have a type, in their order. Other declarations have none.
pub fn typed_numbers(alloc: Global, decl: &Decl<Numbered>) -> Result<Vec<u32>, OutOfMemory>
    ensures { IfOk result (λ all. all.items ≡ numbers_in (declaration itself decl.now)) }
{
    let mut all = Vec::new(alloc);
    if let Decl::Fun(at, _, _) = decl {
        all.push(at.number)?;
        add_numbers(alloc, decl, &mut all)?;
    }
    Ok(all)
}
