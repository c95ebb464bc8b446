// What stands in a node.
ghost use Rattle.std.specs.Prelude.{◌≡◌, ◌∷◌, ◌++◌};
ghost use Rattle.rw_tree.specs.Views.{itself};
ghost use Rattle.rw_tree.specs.Trees.{alternative_of, expression, local_binding, right_side, statement};
ghost use Rattle.rw_tree.specs.Patterns.{pattern};
ghost use Rattle.rw_scope_rules.specs.Nodes.{expression_node, pattern_node, clause_node, binding_node, statement_node, expression_nodes, pattern_nodes, clause_nodes, binding_nodes, side_nodes, statement_nodes};
ghost use Rattle.rw_scope_nodes.specs.Plain.{inner_nodes, task_nodes};

use crate::task::{Parts, Task};
use rw_tree::{Alt, Expr, Local, Pat, Rhs, Stmt};

// One task alone.
fn one<'a, A: Copy + Drop>(first: Task<'a, A>) -> Parts<'a, A>
    ensures { inner_nodes result ≡ task_nodes first.entry }
{
    Parts {
        first,
        second: Task::Nothing,
        third: Task::Nothing,
    }
}

// Two tasks.
fn two<'a, A: Copy + Drop>(first: Task<'a, A>, second: Task<'a, A>) -> Parts<'a, A>
    ensures { inner_nodes result ≡ task_nodes first.entry ++ task_nodes second.entry }
{
    Parts {
        first,
        second,
        third: Task::Nothing,
    }
}

// What stands in a pattern.
pub fn pattern_parts<'a, A: Copy + Drop>(tree: &'a Pat<A>) -> Parts<'a, A>
    ensures { pattern_nodes (pattern itself tree.now) ≡ pattern_node (pattern itself tree.now) ∷ inner_nodes result }
{
    match tree {
        Pat::Wild(_) => one(Task::Nothing),
        Pat::Var(_, _) => one(Task::Nothing),
        Pat::Con(_, _, parts) => one(Task::Patterns(parts.as_slice())),
        Pat::Tuple(_, parts) => one(Task::Patterns(parts.as_slice())),
    }
}

// What stands in an expression.
pub fn expression_parts<'a, A: Copy + Drop>(tree: &'a Expr<A>) -> Parts<'a, A>
    ensures { expression_nodes (expression itself tree.now) ≡ expression_node (expression itself tree.now) ∷ inner_nodes result }
{
    match tree {
        Expr::Var(_, _) => one(Task::Nothing),
        Expr::Con(_, _) => one(Task::Nothing),
        Expr::Apply(_, head, parts) => two(
            Task::Expression(head.get()),
            Task::Expressions(parts.as_slice()),
        ),
        Expr::Tuple(_, parts) => one(Task::Expressions(parts.as_slice())),
        Expr::Chain(_, operands, operators) => two(
            Task::Expressions(operands.as_slice()),
            Task::Expressions(operators.as_slice()),
        ),
        Expr::Lambda(_, pats, body) => two(
            Task::Patterns(pats.as_slice()),
            Task::Expression(body.get()),
        ),
        Expr::Let(_, group, body) => {
            two(Task::Group(group.as_slice()), Task::Expression(body.get()))
        }
        Expr::If(_, test, yes, no) => Parts {
            first: Task::Expression(test.get()),
            second: Task::Expression(yes.get()),
            third: Task::Expression(no.get()),
        },
        Expr::Case(_, scrutinee, rows) => two(
            Task::Expression(scrutinee.get()),
            Task::Clauses(rows.as_slice()),
        ),
        Expr::Do(_, statements) => one(Task::Statements(statements.as_slice())),
    }
}

// A right side.
fn side_task<'a, A: Copy + Drop>(side: &'a Rhs<A>) -> Task<'a, A>
    ensures { side_nodes (right_side itself side.now) ≡ task_nodes result }
{
    match side {
        Rhs::Plain(body) => Task::Expression(body),
        Rhs::Guarded(guards) => Task::Guards(guards.as_slice()),
    }
}

// What stands in a clause: its patterns, its right side, and the group after `where`.
pub fn clause_parts<'a, A: Copy + Drop>(tree: &'a Alt<A>) -> Parts<'a, A>
    ensures { clause_nodes (alternative_of itself tree.now) ≡ clause_node (alternative_of itself tree.now) ∷ inner_nodes result }
{
    Parts {
        first: Task::Patterns(tree.pats.as_slice()),
        second: side_task(&tree.rhs),
        third: Task::Group(tree.wheres.as_slice()),
    }
}

// What stands in a local binding.
pub fn binding_parts<'a, A: Copy + Drop>(tree: &'a Local<A>) -> Parts<'a, A>
    ensures { binding_nodes (local_binding itself tree.now) ≡ binding_node (local_binding itself tree.now) ∷ inner_nodes result }
{
    match tree {
        Local::Sig(_, _, _) => one(Task::Nothing),
        Local::Fun(_, _, clauses) => one(Task::Clauses(clauses.as_slice())),
        Local::Pattern(_, bound) => one(Task::Clause(bound)),
    }
}

// What stands in a statement.
pub fn statement_parts<'a, A: Copy + Drop>(tree: &'a Stmt<A>) -> Parts<'a, A>
    ensures { statement_nodes (statement itself tree.now) ≡ statement_node (statement itself tree.now) ∷ inner_nodes result }
{
    match tree {
        Stmt::Bind(_, pat, body) => two(Task::Pattern(pat), Task::Expression(body)),
        Stmt::Let(_, group) => one(Task::Group(group.as_slice())),
        Stmt::Run(_, body) => one(Task::Expression(body)),
    }
}
