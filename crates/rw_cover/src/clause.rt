// The rows of clauses, which of them count, and whether they cover.
ghost use Rattle.std.specs.Prelude.{◌≡◌, ◌∷◌, ◌++◌, [], IfOk, OnOk, map};
ghost use Rattle.rw_tree.specs.Views.{itself};
ghost use Rattle.rw_tree.specs.Patterns.{patterns as tree_patterns};
ghost use Rattle.rw_tree.specs.Trees.{alternative_of, right_side};
ghost use Rattle.rw_cover_matrix.specs.Matching.{plain_rows};
ghost use Rattle.rw_cover_matrix.specs.Coverage.{Decides};
ghost use Rattle.rw_cover.specs.Rows.{is_total as is_total_side, matrix_row as row_of, counted_row as row_if_counted, counted_rows as rows_of};

use crate::Known;
use crate::pattern::matrix_row;
use rw_base::OutOfMemory;
use rw_cover_matrix::{Pattern, covers};
use rw_scope_rules::Bound;
use rw_tree::{Alt, Pat, Rhs};
use sqlite_items::Items;
use std::alloc::Global;

// Whether a right side is taken whenever the patterns match: it has no guards, or the last one is known to hold.
fn is_total(known: &Known, rhs: &Rhs<Bound>) -> bool
    ensures { result ≡ is_total_side known.now (right_side itself rhs.now) }
{
    match rhs {
        Rhs::Plain(_) => true,
        Rhs::Guarded(guards) => {
            let guards = guards.as_slice();
            if guards.is_empty() {
                false
            } else {
                known.always(&guards[guards.len() - 1].test)
            }
        }
    }
}

// The row of a clause or alternative more, if it counts.
fn add_counted(
    alloc: Global,
    counts: &[usize],
    known: &Known,
    rows: &mut Items<Items<Pattern>>,
    clause: &Alt<Bound>,
) -> Result<(), OutOfMemory>
    ensures { OnOk result (plain_rows rows.new ≡ plain_rows rows.old ++ row_if_counted counts.now known.now (alternative_of itself clause.now)) }
{
    if !is_total(known, &clause.rhs) {
        return Ok(());
    }
    rows.push(matrix_row(alloc, counts, clause.pats.as_slice())?)?;
    Ok(())
}

// The rows of clauses or alternatives that count, in order.
fn counted_rows(
    alloc: Global,
    counts: &[usize],
    known: &Known,
    clauses: &[Alt<Bound>],
) -> Result<Items<Items<Pattern>>, OutOfMemory>
    ensures { IfOk result (λ rows. plain_rows rows ≡ rows_of counts.now known.now (map (alternative_of itself) clauses.now)) }
{
    let mut rows = Items::new(alloc);
    for clause in clauses {
        add_counted(alloc, counts, known, &mut rows, clause)?;
    }
    Ok(rows)
}

/// Whether the clauses of a function, the alternatives of a `case` or the one of a pattern binding cover: those of them
/// count that have no guards, or whose last guard is known to hold (Haskell 2010 Report, sections 3.13 and 3.17).
/// `counts` has the number of constructors of each declaration. The answer holds for all types at which the patterns may
/// stand.
pub fn clauses_cover(
    alloc: Global,
    counts: &[usize],
    known: &Known,
    clauses: &[Alt<Bound>],
) -> Result<bool, OutOfMemory>
    ensures { IfOk result (λ answer. Decides answer (rows_of counts.now known.now (map (alternative_of itself) clauses.now))) }
{
    covers(alloc, counted_rows(alloc, counts, known, clauses)?)
}

/// Whether the patterns of a lambda, or the one of a `<-`, cover: whether all values match them.
pub fn patterns_cover(
    alloc: Global,
    counts: &[usize],
    patterns: &[Pat<Bound>],
) -> Result<bool, OutOfMemory>
    ensures { IfOk result (λ answer. Decides answer (row_of counts.now (tree_patterns itself patterns.now) ∷ [])) }
{
    let mut rows = Items::new(alloc);
    rows.push(matrix_row(alloc, counts, patterns)?)?;
    covers(alloc, rows)
}
