// The numbers of local names: those that a binding binds, and those that stand in it.
ghost use Rattle.std.specs.Prelude.{◌≡◌, ◌++◌, IfOk, OnOk, flat_map};
ghost use Rattle.rw_tree.specs.Views.{itself};
ghost use Rattle.rw_tree.specs.Patterns.{pattern};
ghost use Rattle.rw_tree.specs.Trees.{expression, local_binding};
ghost use Rattle.rw_scope_rules.specs.Groups.{number_of as numbers_of_name, own_numbers, mentioned_in_node, mentioned_numbers};
ghost use Rattle.rw_scope_nodes.specs.Plain.{plain_node, plain_nodes};
ghost use Rattle.rw_scope_groups.specs.Rows.{bound_in_node};

use rw_base::OutOfMemory;
use rw_scope_nodes::{Node, nodes_of_binding, nodes_of_patterns};
use rw_scope_rules::{Binding, Bound};
use rw_tree::{Expr, Local, Pat};
use sqlite_items::Items;
use std::alloc::Global;

// Adds the number of a name, if it is a local one.
fn add_number(at: &Bound, numbers: &mut Items<u32>) -> Result<(), OutOfMemory>
    ensures { OnOk result (numbers.new ≡ numbers.old ++ numbers_of_name at.now.bound) }
{
    match at.bound {
        Some(Binding::Local(number)) => {
            numbers.push(number)?;
            Ok(())
        }
        _ => Ok(()),
    }
}

// Adds the number of a variable that a pattern binds.
fn add_bound(node: &Node<'_, Bound>, numbers: &mut Items<u32>) -> Result<(), OutOfMemory>
    ensures { OnOk result (numbers.new ≡ numbers.old ++ bound_in_node (plain_node node.now)) }
{
    match node {
        Node::Pattern(Pat::Var(at, _)) => add_number(at, numbers),
        _ => Ok(()),
    }
}

// Adds the number of a variable that stands in an expression.
fn add_mentioned(node: &Node<'_, Bound>, numbers: &mut Items<u32>) -> Result<(), OutOfMemory>
    ensures { OnOk result (numbers.new ≡ numbers.old ++ mentioned_in_node (plain_node node.now)) }
{
    match node {
        Node::Expression(Expr::Var(at, _)) => add_number(at, numbers),
        _ => Ok(()),
    }
}

// The numbers of the variables of these nodes, which are those of patterns.
fn all_bound(alloc: Global, nodes: &[Node<'_, Bound>]) -> Result<Items<u32>, OutOfMemory>
    ensures { IfOk result (λ numbers. numbers ≡ flat_map bound_in_node (plain_nodes nodes.now)) }
{
    let mut numbers = Items::new(alloc);
    for node in nodes {
        add_bound(node, &mut numbers)?;
    }
    Ok(numbers)
}

// The numbers that a binding binds: a signature binds none.
pub fn own(alloc: Global, binding: &Local<Bound>) -> Result<Items<u32>, OutOfMemory>
    ensures { IfOk result (λ numbers. numbers ≡ own_numbers (local_binding itself binding.now)) }
{
    match binding {
        Local::Sig(_, _, _) => Ok(Items::new(alloc)),
        Local::Fun(at, _, _) => {
            let mut numbers = Items::new(alloc);
            add_number(at, &mut numbers)?;
            Ok(numbers)
        }
        Local::Pattern(_, bound) => {
            let found = nodes_of_patterns(alloc, bound.pats.as_slice())?;
            all_bound(alloc, found.as_slice())
        }
    }
}

// The numbers of the local names that stand in a binding.
pub fn mentioned(alloc: Global, binding: &Local<Bound>) -> Result<Items<u32>, OutOfMemory>
    ensures { IfOk result (λ numbers. numbers ≡ mentioned_numbers (local_binding itself binding.now)) }
{
    let found = nodes_of_binding(alloc, binding)?;
    let mut numbers = Items::new(alloc);
    for node in found.as_slice() {
        add_mentioned(node, &mut numbers)?;
    }
    Ok(numbers)
}
