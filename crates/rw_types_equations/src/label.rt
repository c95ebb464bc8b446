// The number of a node.
ghost use Rattle.std.specs.Prelude.{◌≡◌, ℕ, IfOk, map};
ghost use Rattle.rw_types_solving.specs.Types.{Ty};
ghost use Rattle.rw_tree.specs.Patterns.{pattern, patterns};
ghost use Rattle.rw_tree.specs.Trees.{expression, expression_parts};
ghost use Rattle.rw_types_rules.specs.TypedTrees.{pattern_type, row_types, expression_type, expressions_types};
ghost use Rattle.rw_types_equations.specs.Numbered.{typed_by};

use crate::Numbered;
use rw_base::OutOfMemory;
use rw_tree::{Expr, Pat};
use sqlite_items::Items;
use std::alloc::Global;

// The number of a pattern.
#[tactic(auto, using(crate::proofs::Forms::pattern_forms))]
pub fn pattern_number(tree: &Pat<Numbered>) -> u32
    ensures { (t : ℕ → Ty) → pattern_type (pattern (typed_by t) tree.now) ≡ t result }
{
    match tree {
        Pat::Wild(at) => at.number,
        Pat::Var(at, _) => at.number,
        Pat::Con(at, _, _) => at.number,
        Pat::Tuple(at, _) => at.number,
    }
}

// The numbers of patterns.
pub fn pattern_numbers(alloc: Global, trees: &[Pat<Numbered>]) -> Result<Items<u32>, OutOfMemory>
    ensures { IfOk result (λ made. (t : ℕ → Ty) → row_types (patterns (typed_by t) trees.now) ≡ map t made) }
{
    let mut numbers = Items::new(alloc);
    for tree in trees {
        numbers.push(pattern_number(tree))?;
    }
    Ok(numbers)
}

// The number of an expression.
#[tactic(auto, using(crate::proofs::Forms::expression_forms))]
pub fn number_of(tree: &Expr<Numbered>) -> u32
    ensures { (t : ℕ → Ty) → expression_type (expression (typed_by t) tree.now) ≡ t result }
{
    match tree {
        Expr::Var(at, _) => at.number,
        Expr::Con(at, _) => at.number,
        Expr::Apply(at, _, _) => at.number,
        Expr::Tuple(at, _) => at.number,
        Expr::Chain(at, _, _) => at.number,
        Expr::Lambda(at, _, _) => at.number,
        Expr::Let(at, _, _) => at.number,
        Expr::If(at, _, _, _) => at.number,
        Expr::Case(at, _, _) => at.number,
        Expr::Do(at, _) => at.number,
    }
}

// The numbers of expressions.
pub fn numbers_of(alloc: Global, trees: &[Expr<Numbered>]) -> Result<Items<u32>, OutOfMemory>
    ensures { IfOk result (λ made. (t : ℕ → Ty) → expressions_types (expression_parts (map (expression (typed_by t)) trees.now)) ≡ map t made) }
{
    let mut numbers = Items::new(alloc);
    for tree in trees {
        numbers.push(number_of(tree))?;
    }
    Ok(numbers)
}
