// The walk over a program's functions.
ghost use Rattle.std.specs.Prelude.{◌≡◌, ◌++◌, IfOk, OnOk};
ghost use Rattle.rw_tree.specs.Views.{itself};
ghost use Rattle.rw_tree.specs.Declarations.{declaration, plain_program};
ghost use Rattle.rw_tree.specs.Patterns.{pattern, patterns};
ghost use Rattle.rw_tree.specs.Trees.{local_binding};
ghost use Rattle.rw_scope_rules.specs.Nodes.{binding_nodes, declaration_nodes, pattern_nodes, program_nodes, row_nodes};
ghost use Rattle.rw_scope_nodes.specs.Plain.{plain_nodes, task_nodes};

use crate::node::Node;
use crate::step::step;
use crate::task::Task;
use rw_base::OutOfMemory;
use rw_tree::{Decl, Local, Pat, Program};
use std::alloc::Global;

// Appends the nodes of a task.
fn walk<'a, A: Copy + Drop>(
    alloc: Global,
    task: Task<'a, A>,
    found: &mut Vec<Node<'a, A>>,
) -> Result<(), OutOfMemory>
    ensures { OnOk result (plain_nodes found.new.items ≡ plain_nodes found.old.items ++ task_nodes task.entry) }
{
    let mut left = Vec::new(alloc);
    left.push(task)?;
    while let Some(next) = left.pop() {
        step(next, &mut left, found)?;
    }
    Ok(())
}

// Appends the nodes of a declaration.
fn walk_declaration<'a, A: Copy + Drop>(
    alloc: Global,
    decl: &'a Decl<A>,
    found: &mut Vec<Node<'a, A>>,
) -> Result<(), OutOfMemory>
    ensures { OnOk result (plain_nodes found.new.items ≡ plain_nodes found.old.items ++ declaration_nodes (declaration itself decl.now)) }
{
    match decl {
        Decl::Fun(_, _, clauses) => walk(alloc, Task::Clauses(clauses.as_slice()), found),
        _ => Ok(()),
    }
}

/// The nodes of a program's functions, in the order of its declarations, each node before what stands in it.
pub fn nodes<'a, A: Copy + Drop>(
    alloc: Global,
    program: &'a Program<A>,
) -> Result<Vec<Node<'a, A>>, OutOfMemory>
    ensures { IfOk result (λ found. plain_nodes found.items ≡ program_nodes (plain_program itself program.now)) }
{
    let mut found = Vec::new(alloc);
    for decl in program.decls.as_slice() {
        walk_declaration(alloc, decl, &mut found)?;
    }
    Ok(found)
}

/// The nodes of one declaration.
pub fn nodes_of_declaration<'a, A: Copy + Drop>(
    alloc: Global,
    decl: &'a Decl<A>,
) -> Result<Vec<Node<'a, A>>, OutOfMemory>
    ensures { IfOk result (λ found. plain_nodes found.items ≡ declaration_nodes (declaration itself decl.now)) }
{
    let mut found = Vec::new(alloc);
    walk_declaration(alloc, decl, &mut found)?;
    Ok(found)
}

/// The nodes of one local binding.
pub fn nodes_of_binding<'a, A: Copy + Drop>(
    alloc: Global,
    binding: &'a Local<A>,
) -> Result<Vec<Node<'a, A>>, OutOfMemory>
    ensures { IfOk result (λ found. plain_nodes found.items ≡ binding_nodes (local_binding itself binding.now)) }
{
    let mut found = Vec::new(alloc);
    walk(alloc, Task::Binding(binding), &mut found)?;
    Ok(found)
}

/// The nodes of one pattern.
pub fn nodes_of_pattern<'a, A: Copy + Drop>(
    alloc: Global,
    pat: &'a Pat<A>,
) -> Result<Vec<Node<'a, A>>, OutOfMemory>
    ensures { IfOk result (λ found. plain_nodes found.items ≡ pattern_nodes (pattern itself pat.now)) }
{
    let mut found = Vec::new(alloc);
    walk(alloc, Task::Pattern(pat), &mut found)?;
    Ok(found)
}

/// The nodes of these patterns.
pub fn nodes_of_patterns<'a, A: Copy + Drop>(
    alloc: Global,
    pats: &'a [Pat<A>],
) -> Result<Vec<Node<'a, A>>, OutOfMemory>
    ensures { IfOk result (λ found. plain_nodes found.items ≡ row_nodes (patterns itself pats.now)) }
{
    let mut found = Vec::new(alloc);
    walk(alloc, Task::Patterns(pats), &mut found)?;
    Ok(found)
}
