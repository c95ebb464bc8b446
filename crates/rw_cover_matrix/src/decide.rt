// Whether rows of patterns cover all values.
ghost use Rattle.std.specs.Prelude.{◌≡◌, ◌↔◌, ◌∷◌, ◌++◌, [], IfOk, IsTrue};
ghost use Rattle.rw_cover_matrix.specs.Values.{Shapes};
ghost use Rattle.rw_cover_matrix.specs.Matching.{plain_rows, AreRowsOf};
ghost use Rattle.rw_cover_matrix.specs.Coverage.{Covers};
ghost use Rattle.rw_cover_matrix.specs.Owing.{IsSeen, IsAsked};

use crate::Pattern;
use crate::copy::with_copies;
use crate::measures::{has_open, widest};
use crate::sort::{Sorted, sort_rows};
use rw_base::OutOfMemory;
use sqlite_items::Items;
use std::alloc::Global;

/// Whether the rows, each with a pattern for each column, cover: whether all values of the columns' types, one for each
/// column, match some row (Haskell 2010 Report, section 3.17.2). A row may leave out patterns at its end, which then
/// match everything.
///
/// The answer is right for all types of columns at which the rows may stand. It is found without listing values, from the
/// last column to the first: where each constructor of the column's type stands in it, for each of them the rows that can
/// match it, and else the rows that have no constructor there.
pub fn covers(alloc: Global, rows: Items<Items<Pattern>>) -> Result<bool, OutOfMemory>
    ensures { IfOk result (λ answer. (columns : Shapes) → AreRowsOf (plain_rows rows) columns → IsTrue answer ↔ Covers columns (plain_rows rows)) }
{
    let mut owed = Vec::new(alloc);
    owed.push(Sorted::whole(alloc, rows)?)?;
    while let Some(last) = owed.pop() {
        if !asked(alloc, last, &mut owed)? {
            return Ok(false);
        }
    }
    Ok(true)
}

// Looks at the last of some groups, and puts the others back, and behind them what has to cover in its place. False where
// the group doesn't cover.
fn asked(alloc: Global, last: Sorted, owed: &mut Vec<Sorted>) -> Result<bool, OutOfMemory>
    ensures { IfOk result (IsAsked owed.old.items last owed.new.items) }
{
    let Sorted {
        mut groups,
        shorter,
    } = last;
    match groups.pop() {
        None => Ok(true),
        Some(group) => {
            let rows = with_copies(alloc, group, shorter.as_slice())?;
            owed.push(Sorted { groups, shorter })?;
            match look(alloc, rows)? {
                Seen::Answer(answer) => Ok(answer),
                Seen::Fewer(fewer) => {
                    owed.push(fewer)?;
                    Ok(true)
                }
            }
        }
    }
}

// What is seen of rows: whether they cover, or which fewer patterns have to cover in their place.
#[derive(Drop)]
pub enum Seen {
    Answer(bool),
    Fewer(Sorted),
}

// Looks at the last column of rows.
fn look(alloc: Global, rows: Items<Items<Pattern>>) -> Result<Seen, OutOfMemory>
    ensures { IfOk result (IsSeen (plain_rows rows)) }
{
    let width = widest(rows.as_slice());
    if width == 0 {
        return Ok(Seen::Answer(!rows.is_empty()));
    }
    if has_open(rows.as_slice()) {
        return Ok(Seen::Answer(true));
    }
    let sorted = sort_rows(alloc, rows, width - 1)?;
    let needed = sorted.needed(alloc)?;
    Ok(Seen::Fewer(needed))
}
