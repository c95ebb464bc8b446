// The patterns of a bound tree as those of a matrix.
ghost use Rattle.std.specs.Prelude.{◌≡◌, ◌<◌, IfOk, length, get_or};
ghost use Rattle.rw_tree.specs.Views.{itself};
ghost use Rattle.rw_tree.specs.Patterns.{pattern as tree_pattern, patterns as tree_patterns};
ghost use Rattle.rw_cover_matrix.specs.Matching.{plain, plain_row, pattern_parts};
ghost use Rattle.rw_cover.specs.Rows.{built_by, matrix_pattern as pattern_of, matrix_row as row_of};

use rw_base::OutOfMemory;
use rw_cover_matrix::Pattern;
use rw_scope_rules::{Binding, Bound};
use rw_tree::Pat;
use sqlite_items::Items;
use std::alloc::Global;

// How many constructors the declaration with this number has.
fn count_at(counts: &[usize], decl: usize) -> usize
    ensures { result ≡ get_or counts.now decl 0 }
{
    if decl < counts.len() { counts[decl] } else { 0 }
}

// A constructor, by what its name is bound to.
fn built(counts: &[usize], bound: Option<Binding>, parts: Items<Pattern>) -> Pattern
    ensures { plain result ≡ built_by counts.now bound (pattern_parts (plain_row parts)) }
{
    match bound {
        Some(Binding::Constructor(decl, place)) => {
            Pattern::Con(place as usize, count_at(counts, decl as usize), parts)
        }
        Some(Binding::Declared(_)) => Pattern::Any,
        Some(Binding::Operation(_)) => Pattern::Any,
        Some(Binding::Local(_)) => Pattern::Any,
        None => Pattern::Any,
    }
}

// A pattern without its names.
#[cycle(matrix)]
fn matrix_pattern(
    alloc: Global,
    counts: &[usize],
    pattern: &Pat<Bound>,
) -> Result<Pattern, OutOfMemory>
    ensures { IfOk result (λ p. plain p ≡ pattern_of counts.now (tree_pattern itself pattern.now)) }
{
    match pattern {
        Pat::Wild(_) => Ok(Pattern::Any),
        Pat::Var(_, _) => Ok(Pattern::Any),
        Pat::Con(at, _, parts) => {
            let parts = matrix_row(alloc, counts, parts.as_slice())?;
            Ok(built(counts, at.bound, parts))
        }
        Pat::Tuple(_, parts) => {
            let parts = matrix_row(alloc, counts, parts.as_slice())?;
            Ok(Pattern::Con(0, 1, parts))
        }
    }
}

// Patterns without their names, in order.
#[cycle(matrix)]
pub fn matrix_row(
    alloc: Global,
    counts: &[usize],
    patterns: &[Pat<Bound>],
) -> Result<Items<Pattern>, OutOfMemory>
    ensures { IfOk result (λ row. plain_row row ≡ row_of counts.now (tree_patterns itself patterns.now)) }
{
    let mut row = Items::new(alloc);
    for pattern in patterns {
        row.push(matrix_pattern(alloc, counts, pattern)?)?;
    }
    Ok(row)
}
