// The groups of rows that have to cover, one after the other: the place of each that doesn't.
ghost use Rattle.std.specs.Prelude.{◌≡◌, IfOk, map};
ghost use Rattle.rw_tree.specs.Views.{itself};
ghost use Rattle.rw_tree.specs.Trees.{alternative_of, expression, local_binding, statement};
ghost use Rattle.rw_tree.specs.Declarations.{declaration};
ghost use Rattle.rw_scope_rules.specs.Nodes.{binding_node, expression_node, statement_node};
ghost use Rattle.rw_scope_nodes.specs.Plain.{plain_node};
ghost use Rattle.rw_cover.specs.Coverage.{clauses_group, node_group};
ghost use Rattle.rw_cover.specs.Correct.{IsFirst};
ghost use Rattle.rw_cover.specs.Walk.{own_groups};

use crate::place::unless;
use crate::{Known, clauses_cover, patterns_cover};
use rw_base::{OutOfMemory, Place};
use rw_scope_nodes::Node;
use rw_scope_rules::Bound;
use rw_tree::{Alt, Decl, Expr, Local, Stmt};
use std::alloc::Global;
use std::slice;

// The clauses of a function: at the first of them.
fn clauses_place(
    alloc: Global,
    counts: &[usize],
    known: &Known,
    clauses: &[Alt<Bound>],
) -> Result<Option<Place>, OutOfMemory>
    ensures { IfOk result (λ first. IsFirst (clauses_group counts.now known.now (map (alternative_of itself) clauses.now)) first) }
{
    match clauses.split_first() {
        None => Ok(None),
        Some((first, _)) => {
            let covered = clauses_cover(alloc, counts, known, clauses)?;
            Ok(unless(covered, first.at.span.first))
        }
    }
}

// The alternatives of a `case`, or the patterns of a lambda.
fn expression_place(
    alloc: Global,
    counts: &[usize],
    known: &Known,
    tree: &Expr<Bound>,
) -> Result<Option<Place>, OutOfMemory>
    ensures { IfOk result (λ first. IsFirst (node_group counts.now known.now (expression_node (expression itself tree.now))) first) }
{
    match tree {
        Expr::Case(at, _, rows) => {
            let covered = clauses_cover(alloc, counts, known, rows.as_slice())?;
            Ok(unless(covered, at.span.first))
        }
        Expr::Lambda(at, pats, _) => {
            let covered = patterns_cover(alloc, counts, pats.as_slice())?;
            Ok(unless(covered, at.span.first))
        }
        Expr::Var(_, _) => Ok(None),
        Expr::Con(_, _) => Ok(None),
        Expr::Apply(_, _, _) => Ok(None),
        Expr::Tuple(_, _) => Ok(None),
        Expr::Chain(_, _, _) => Ok(None),
        Expr::Let(_, _, _) => Ok(None),
        Expr::If(_, _, _, _) => Ok(None),
        Expr::Do(_, _) => Ok(None),
    }
}

// The clauses of a local function, or the pattern of a pattern binding.
fn binding_place(
    alloc: Global,
    counts: &[usize],
    known: &Known,
    tree: &Local<Bound>,
) -> Result<Option<Place>, OutOfMemory>
    ensures { IfOk result (λ first. IsFirst (node_group counts.now known.now (binding_node (local_binding itself tree.now))) first) }
{
    match tree {
        Local::Sig(_, _, _) => Ok(None),
        Local::Fun(_, _, clauses) => clauses_place(alloc, counts, known, clauses.as_slice()),
        Local::Pattern(at, bound) => {
            let covered = clauses_cover(alloc, counts, known, slice::from_ref(bound))?;
            Ok(unless(covered, at.span.first))
        }
    }
}

// The pattern of a `<-`.
fn statement_place(
    alloc: Global,
    counts: &[usize],
    known: &Known,
    tree: &Stmt<Bound>,
) -> Result<Option<Place>, OutOfMemory>
    ensures { IfOk result (λ first. IsFirst (node_group counts.now known.now (statement_node (statement itself tree.now))) first) }
{
    match tree {
        Stmt::Bind(at, pat, _) => {
            let covered = patterns_cover(alloc, counts, slice::from_ref(pat))?;
            Ok(unless(covered, at.span.first))
        }
        Stmt::Let(_, _) => Ok(None),
        Stmt::Run(_, _) => Ok(None),
    }
}

// A node: its place, where it has rows that don't cover.
pub fn node_place(
    alloc: Global,
    counts: &[usize],
    known: &Known,
    node: &Node<'_, Bound>,
) -> Result<Option<Place>, OutOfMemory>
    ensures { IfOk result (λ first. IsFirst (node_group counts.now known.now (plain_node node.now)) first) }
{
    match node {
        Node::Expression(tree) => expression_place(alloc, counts, known, tree),
        Node::Binding(tree) => binding_place(alloc, counts, known, tree),
        Node::Statement(tree) => statement_place(alloc, counts, known, tree),
        _ => Ok(None),
    }
}

// The clauses of a declaration.
pub fn own_place(
    alloc: Global,
    counts: &[usize],
    known: &Known,
    decl: &Decl<Bound>,
) -> Result<Option<Place>, OutOfMemory>
    ensures { IfOk result (λ first. IsFirst (own_groups counts.now known.now (declaration itself decl.now)) first) }
{
    match decl {
        Decl::Fun(_, _, clauses) => clauses_place(alloc, counts, known, clauses.as_slice()),
        _ => Ok(None),
    }
}
