// What is seen of rows at a glance: how long the longest is, whether everything matches one, and how many constructors the
// type of a column has.
ghost use Rattle.std.specs.Prelude.{◌≡◌, ◌+◌, ◌<◌, ℕ, suc, MatchOption, IsTrue};
ghost use Rattle.rw_cover_matrix.specs.Matching.{plain_row, plain_rows};
ghost use Rattle.rw_cover_matrix.specs.Columns.{AreWithin, IsReached, HasOpen, IsOpen, cell_at, cell_count, column_count as count_of};

use crate::Pattern;
use sqlite_items::Items;

// The number of patterns in the longest row, 0 without rows.
pub fn widest(rows: &[Items<Pattern>]) -> usize
    ensures within { AreWithin result (plain_rows rows.now) }
    ensures reached { 0 < result → IsReached result (plain_rows rows.now) }
{
    let mut width = 0;
    for row in rows {
        if row.len() > width {
            width = row.len();
        }
    }
    width
}

// Whether a row has wildcards alone, or nothing.
fn is_open(row: &[Pattern]) -> bool
    ensures { IsTrue result → IsOpen (plain_row row.now) }
{
    for pattern in row {
        match pattern {
            Pattern::Any => {}
            Pattern::Con(_, _, _) => return false,
        }
    }
    true
}

// Whether everything matches some row: it has wildcards alone, or nothing.
pub fn has_open(rows: &[Items<Pattern>]) -> bool
    ensures { IsTrue result → HasOpen (plain_rows rows.now) }
{
    for row in rows {
        if is_open(row.as_slice()) {
            return true;
        }
    }
    false
}

// How many constructors the type of this column has, if a constructor stands there in the row.
fn among_at(row: &[Pattern], column: usize) -> Option<usize>
    ensures { MatchOption result ((others : ℕ) → cell_count (cell_at column (plain_row row.now)) others ≡ others) (λ among. (others : ℕ) → cell_count (cell_at column (plain_row row.now)) others ≡ among) }
{
    if column >= row.len() {
        return None;
    }
    match &row[column] {
        Pattern::Any => None,
        Pattern::Con(_, among, _) => Some(*among),
    }
}

// How many constructors the type of this column has, by the first row with a constructor there: 0 where there is none.
pub fn column_count(rows: &[Items<Pattern>], column: usize) -> usize
    ensures { result ≡ count_of column (plain_rows rows.now) }
{
    for row in rows {
        if let Some(among) = among_at(row.as_slice(), column) {
            return among;
        }
    }
    0
}
