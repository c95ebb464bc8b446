// One step of the walk: the first node of a task is found, and what is left of the task is put on the list.
ghost use Rattle.std.specs.Prelude.{◌≡◌, ◌++◌, ◌+◌, ◌*◌, ◌≤◌, ◌∷◌, OnOk, vec_len, flat_map, map};
ghost use Rattle.rw_tree.specs.Views.{itself};
ghost use Rattle.rw_tree.specs.Trees.{alternative_of, binding_parts as plain_parts, expression, guarded, local_binding, statement};
ghost use Rattle.rw_tree.specs.Patterns.{pattern};
ghost use Rattle.rw_scope_rules.specs.Nodes.{binding_nodes, body_nodes, clause_nodes, expression_nodes, group_node, pattern_nodes, statement_nodes};
ghost use Rattle.rw_scope_nodes.specs.Plain.{in_all, inner_nodes, left_nodes, plain_nodes, task_nodes};

use crate::node::Node;
use crate::parts::{binding_parts, clause_parts, expression_parts, pattern_parts, statement_parts};
use crate::task::{Parts, Task};
use rw_base::OutOfMemory;
use rw_tree::{Alt, Expr, Guard, Local, Pat, Stmt};

// Puts what stands in a node before the tasks that are left.
fn put<'a, A: Copy + Drop>(
    left: &mut Vec<Task<'a, A>>,
    parts: Parts<'a, A>,
) -> Result<(), OutOfMemory>
    ensures nodes { OnOk result (left_nodes left.new.items ≡ inner_nodes parts.entry ++ left_nodes left.old.items) }
    ensures count { OnOk result (vec_len left.new ≡ vec_len left.old + 3) }
{
    let Parts {
        first,
        second,
        third,
    } = parts;
    left.push(third)?;
    left.push(second)?;
    left.push(first)?;
    Ok(())
}

// An expression is found.
fn find_expression<'a, A: Copy + Drop>(
    tree: &'a Expr<A>,
    left: &mut Vec<Task<'a, A>>,
    found: &mut Vec<Node<'a, A>>,
) -> Result<(), OutOfMemory>
    ensures nodes { OnOk result (in_all found.new.items left.new.items ≡ plain_nodes found.old.items ++ (expression_nodes (expression itself tree.now) ++ left_nodes left.old.items)) }
    ensures found { OnOk result (vec_len found.new ≡ vec_len found.old + 1) }
    ensures count { OnOk result (vec_len left.new ≡ vec_len left.old + 3) }
{
    found.push(Node::Expression(tree))?;
    put(left, expression_parts(tree))
}

// A pattern is found.
fn find_pattern<'a, A: Copy + Drop>(
    tree: &'a Pat<A>,
    left: &mut Vec<Task<'a, A>>,
    found: &mut Vec<Node<'a, A>>,
) -> Result<(), OutOfMemory>
    ensures nodes { OnOk result (in_all found.new.items left.new.items ≡ plain_nodes found.old.items ++ (pattern_nodes (pattern itself tree.now) ++ left_nodes left.old.items)) }
    ensures found { OnOk result (vec_len found.new ≡ vec_len found.old + 1) }
    ensures count { OnOk result (vec_len left.new ≡ vec_len left.old + 3) }
{
    found.push(Node::Pattern(tree))?;
    put(left, pattern_parts(tree))
}

// A clause is found.
fn find_clause<'a, A: Copy + Drop>(
    tree: &'a Alt<A>,
    left: &mut Vec<Task<'a, A>>,
    found: &mut Vec<Node<'a, A>>,
) -> Result<(), OutOfMemory>
    ensures nodes { OnOk result (in_all found.new.items left.new.items ≡ plain_nodes found.old.items ++ (clause_nodes (alternative_of itself tree.now) ++ left_nodes left.old.items)) }
    ensures found { OnOk result (vec_len found.new ≡ vec_len found.old + 1) }
    ensures count { OnOk result (vec_len left.new ≡ vec_len left.old + 3) }
{
    found.push(Node::Clause(tree))?;
    put(left, clause_parts(tree))
}

// A local binding is found.
fn find_binding<'a, A: Copy + Drop>(
    tree: &'a Local<A>,
    left: &mut Vec<Task<'a, A>>,
    found: &mut Vec<Node<'a, A>>,
) -> Result<(), OutOfMemory>
    ensures nodes { OnOk result (in_all found.new.items left.new.items ≡ plain_nodes found.old.items ++ (binding_nodes (local_binding itself tree.now) ++ left_nodes left.old.items)) }
    ensures found { OnOk result (vec_len found.new ≡ vec_len found.old + 1) }
    ensures count { OnOk result (vec_len left.new ≡ vec_len left.old + 3) }
{
    found.push(Node::Binding(tree))?;
    put(left, binding_parts(tree))
}

// A statement is found.
fn find_statement<'a, A: Copy + Drop>(
    tree: &'a Stmt<A>,
    left: &mut Vec<Task<'a, A>>,
    found: &mut Vec<Node<'a, A>>,
) -> Result<(), OutOfMemory>
    ensures nodes { OnOk result (in_all found.new.items left.new.items ≡ plain_nodes found.old.items ++ (statement_nodes (statement itself tree.now) ++ left_nodes left.old.items)) }
    ensures found { OnOk result (vec_len found.new ≡ vec_len found.old + 1) }
    ensures count { OnOk result (vec_len left.new ≡ vec_len left.old + 3) }
{
    found.push(Node::Statement(tree))?;
    put(left, statement_parts(tree))
}

// The first of these expressions, if there is one.
fn step_expressions<'a, A: Copy + Drop>(
    trees: &'a [Expr<A>],
    left: &mut Vec<Task<'a, A>>,
    found: &mut Vec<Node<'a, A>>,
) -> Result<(), OutOfMemory>
    ensures nodes { OnOk result (in_all found.new.items left.new.items ≡ plain_nodes found.old.items ++ (flat_map expression_nodes (map (expression itself) trees.now) ++ left_nodes left.old.items)) }
    ensures grows { OnOk result (vec_len found.old ≤ vec_len found.new) }
    ensures count { OnOk result (vec_len left.new + 5 * vec_len found.old ≤ vec_len left.old + 5 * vec_len found.new) }
{
    match trees.split_first() {
        None => Ok(()),
        Some((first, rest)) => {
            left.push(Task::Expressions(rest))?;
            find_expression(first, left, found)
        }
    }
}

// The first of these patterns, if there is one.
fn step_patterns<'a, A: Copy + Drop>(
    trees: &'a [Pat<A>],
    left: &mut Vec<Task<'a, A>>,
    found: &mut Vec<Node<'a, A>>,
) -> Result<(), OutOfMemory>
    ensures nodes { OnOk result (in_all found.new.items left.new.items ≡ plain_nodes found.old.items ++ (flat_map pattern_nodes (map (pattern itself) trees.now) ++ left_nodes left.old.items)) }
    ensures grows { OnOk result (vec_len found.old ≤ vec_len found.new) }
    ensures count { OnOk result (vec_len left.new + 5 * vec_len found.old ≤ vec_len left.old + 5 * vec_len found.new) }
{
    match trees.split_first() {
        None => Ok(()),
        Some((first, rest)) => {
            left.push(Task::Patterns(rest))?;
            find_pattern(first, left, found)
        }
    }
}

// The first of these clauses, if there is one.
fn step_clauses<'a, A: Copy + Drop>(
    trees: &'a [Alt<A>],
    left: &mut Vec<Task<'a, A>>,
    found: &mut Vec<Node<'a, A>>,
) -> Result<(), OutOfMemory>
    ensures nodes { OnOk result (in_all found.new.items left.new.items ≡ plain_nodes found.old.items ++ (flat_map clause_nodes (map (alternative_of itself) trees.now) ++ left_nodes left.old.items)) }
    ensures grows { OnOk result (vec_len found.old ≤ vec_len found.new) }
    ensures count { OnOk result (vec_len left.new + 5 * vec_len found.old ≤ vec_len left.old + 5 * vec_len found.new) }
{
    match trees.split_first() {
        None => Ok(()),
        Some((first, rest)) => {
            left.push(Task::Clauses(rest))?;
            find_clause(first, left, found)
        }
    }
}

// The first of these bindings, if there is one.
fn step_bindings<'a, A: Copy + Drop>(
    trees: &'a [Local<A>],
    left: &mut Vec<Task<'a, A>>,
    found: &mut Vec<Node<'a, A>>,
) -> Result<(), OutOfMemory>
    ensures nodes { OnOk result (in_all found.new.items left.new.items ≡ plain_nodes found.old.items ++ (flat_map binding_nodes (map (local_binding itself) trees.now) ++ left_nodes left.old.items)) }
    ensures grows { OnOk result (vec_len found.old ≤ vec_len found.new) }
    ensures count { OnOk result (vec_len left.new + 5 * vec_len found.old ≤ vec_len left.old + 5 * vec_len found.new) }
{
    match trees.split_first() {
        None => Ok(()),
        Some((first, rest)) => {
            left.push(Task::Bindings(rest))?;
            find_binding(first, left, found)
        }
    }
}

// The first of these statements, if there is one.
fn step_statements<'a, A: Copy + Drop>(
    trees: &'a [Stmt<A>],
    left: &mut Vec<Task<'a, A>>,
    found: &mut Vec<Node<'a, A>>,
) -> Result<(), OutOfMemory>
    ensures nodes { OnOk result (in_all found.new.items left.new.items ≡ plain_nodes found.old.items ++ (flat_map statement_nodes (map (statement itself) trees.now) ++ left_nodes left.old.items)) }
    ensures grows { OnOk result (vec_len found.old ≤ vec_len found.new) }
    ensures count { OnOk result (vec_len left.new + 5 * vec_len found.old ≤ vec_len left.old + 5 * vec_len found.new) }
{
    match trees.split_first() {
        None => Ok(()),
        Some((first, rest)) => {
            left.push(Task::Statements(rest))?;
            find_statement(first, left, found)
        }
    }
}

// The test of the first of these guards, if there is one; its body comes next.
fn step_guards<'a, A: Copy + Drop>(
    trees: &'a [Guard<A>],
    left: &mut Vec<Task<'a, A>>,
    found: &mut Vec<Node<'a, A>>,
) -> Result<(), OutOfMemory>
    ensures nodes { OnOk result (in_all found.new.items left.new.items ≡ plain_nodes found.old.items ++ (flat_map body_nodes (map (guarded itself) trees.now) ++ left_nodes left.old.items)) }
    ensures grows { OnOk result (vec_len found.old ≤ vec_len found.new) }
    ensures count { OnOk result (vec_len left.new + 5 * vec_len found.old ≤ vec_len left.old + 5 * vec_len found.new) }
{
    match trees.split_first() {
        None => Ok(()),
        Some((first, rest)) => {
            left.push(Task::Guards(rest))?;
            left.push(Task::Expression(&first.body))?;
            find_expression(&first.test, left, found)
        }
    }
}

// A let group, and behind it what it binds.
fn find_group<'a, A: Copy + Drop>(
    group: &'a [Local<A>],
    left: &mut Vec<Task<'a, A>>,
    found: &mut Vec<Node<'a, A>>,
) -> Result<(), OutOfMemory>
    ensures nodes { OnOk result (in_all found.new.items left.new.items ≡ plain_nodes found.old.items ++ ((group_node (plain_parts (map (local_binding itself) group.now)) ∷ flat_map binding_nodes (map (local_binding itself) group.now)) ++ left_nodes left.old.items)) }
    ensures found { OnOk result (vec_len found.new ≡ vec_len found.old + 1) }
    ensures count { OnOk result (vec_len left.new ≡ vec_len left.old + 1) }
{
    found.push(Node::Group(group))?;
    left.push(Task::Bindings(group))?;
    Ok(())
}

// One step: where the task has a node, the first of them is found.
pub fn step<'a, A: Copy + Drop>(
    task: Task<'a, A>,
    left: &mut Vec<Task<'a, A>>,
    found: &mut Vec<Node<'a, A>>,
) -> Result<(), OutOfMemory>
    ensures nodes { OnOk result (in_all found.new.items left.new.items ≡ plain_nodes found.old.items ++ (task_nodes task.entry ++ left_nodes left.old.items)) }
    ensures grows { OnOk result (vec_len found.old ≤ vec_len found.new) }
    ensures count { OnOk result (vec_len left.new + 5 * vec_len found.old ≤ vec_len left.old + 5 * vec_len found.new) }
{
    match task {
        Task::Nothing => Ok(()),
        Task::Expression(tree) => find_expression(tree, left, found),
        Task::Expressions(trees) => step_expressions(trees, left, found),
        Task::Pattern(tree) => find_pattern(tree, left, found),
        Task::Patterns(trees) => step_patterns(trees, left, found),
        Task::Clause(tree) => find_clause(tree, left, found),
        Task::Clauses(trees) => step_clauses(trees, left, found),
        Task::Guards(trees) => step_guards(trees, left, found),
        Task::Group(group) => find_group(group, left, found),
        Task::Bindings(trees) => step_bindings(trees, left, found),
        Task::Binding(tree) => find_binding(tree, left, found),
        Task::Statements(trees) => step_statements(trees, left, found),
    }
}
