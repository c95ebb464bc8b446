// Rows sorted by what stands in their last column, which is taken away.
ghost use Rattle.std.specs.Prelude.{◌≡◌, ◌+◌, ◌<◌, ◌≤◌, ◌++◌, ◌∷◌, [], ℕ, suc, false, length, map, reverse, replicate, get_or, nat_eq, if◌then◌else◌, IfOk, OnOk, IsTrue};
ghost use Rattle.rw_cover_matrix.specs.Matching.{plain, plain_row, plain_rows};
ghost use Rattle.rw_cover_matrix.specs.Columns.{AreWithin, AreGroups, HasMissing, grown_cell, grown, shorter_cell, shorter, shorter_rows, column_count as count_of};
ghost use Rattle.rw_cover_matrix.specs.Owing.{IsNeeded};

use crate::Pattern;
use crate::measures::column_count;
use rw_base::OutOfMemory;
use sqlite_items::Items;
use std::alloc::Global;

// Rows without their last column. Each group has to cover with the shorter rows behind it.
#[derive(Drop)]
pub struct Sorted {
    // The rows with the constructor that has this place, the parts of its pattern in the place of the column.
    pub groups: Vec<Items<Items<Pattern>>>,
    // The rows that have no constructor in the column.
    pub shorter: Items<Items<Pattern>>,
}

// So many groups without rows.
fn no_groups(alloc: Global, count: usize) -> Result<Vec<Items<Items<Pattern>>>, OutOfMemory>
    ensures { IfOk result (λ groups. groups.items ≡ replicate count []) }
{
    let mut groups = Vec::new(alloc);
    for _place in 0..count {
        groups.push(Items::new(alloc))?;
    }
    Ok(groups)
}

// Whether some group has no rows, or there is none.
fn lacks_some(groups: &[Items<Items<Pattern>>]) -> bool
    ensures some { IsTrue result → HasMissing (map plain_rows groups.now) }
    ensures all { result ≡ false → 0 < length groups.now }
{
    for group in groups {
        if group.is_empty() {
            return true;
        }
    }
    groups.is_empty()
}

impl Sorted {
    // Rows as one group, without shorter rows.
    pub fn whole(alloc: Global, rows: Items<Items<Pattern>>) -> Result<Sorted, OutOfMemory>
        ensures { IfOk result (λ all. (all.groups.items ≡ rows ∷ []) × (all.shorter ≡ [])) }
    {
        Sorted::alone(alloc, rows, Items::new(alloc))
    }

    // One group, with shorter rows.
    fn alone(
        alloc: Global,
        group: Items<Items<Pattern>>,
        shorter: Items<Items<Pattern>>,
    ) -> Result<Sorted, OutOfMemory>
        ensures { IfOk result (λ all. (all.groups.items ≡ group ∷ []) × (all.shorter ≡ shorter)) }
    {
        let mut groups = Vec::new(alloc);
        groups.push(group)?;
        Ok(Sorted { groups, shorter })
    }

    // What has to cover of these. Where a constructor of the column's type stands in no row, the shorter rows have to cover
    // its values, and then they cover those of the others as well.
    pub fn needed(self, alloc: Global) -> Result<Sorted, OutOfMemory>
        ensures { IfOk result (IsNeeded self) }
    {
        if lacks_some(self.groups.as_slice()) {
            Sorted::alone(alloc, Items::new(alloc), self.shorter)
        } else {
            Ok(self)
        }
    }

    // One row more in the group with this place. A place without a group is that of no constructor.
    fn put(&mut self, place: usize, row: Items<Pattern>) -> Result<(), OutOfMemory>
        ensures count { OnOk result (length self.new.groups.items ≡ length self.old.groups.items) }
        ensures shorter { OnOk result (self.new.shorter ≡ self.old.shorter) }
        ensures groups { OnOk result ((t : ℕ) → t < length self.old.groups.items → plain_rows (get_or self.new.groups.items t []) ≡ plain_rows (get_or self.old.groups.items t []) ++ (if nat_eq place t then plain_row row ∷ [] else [])) }
    {
        if place < self.groups.len() {
            self.groups[place].push(row)?;
        }
        Ok(())
    }

    // One row more, with this pattern in the last column and these before it.
    fn add_cell(&mut self, front: Items<Pattern>, cell: Pattern) -> Result<(), OutOfMemory>
        ensures count { OnOk result (length self.new.groups.items ≡ length self.old.groups.items) }
        ensures shorter { OnOk result (plain_rows self.new.shorter ≡ plain_rows self.old.shorter ++ shorter_cell (plain_row front) (Some (plain cell))) }
        ensures groups { OnOk result ((t : ℕ) → t < length self.old.groups.items → plain_rows (get_or self.new.groups.items t []) ≡ plain_rows (get_or self.old.groups.items t []) ++ grown_cell t (plain_row front) (Some (plain cell))) }
    {
        let mut row = front;
        match cell {
            Pattern::Any => {
                self.shorter.push(row)?;
                Ok(())
            }
            Pattern::Con(place, _among, parts) => {
                row.append(parts)?;
                self.put(place, row)
            }
        }
    }

    // One row more, which reaches at most the column with this number.
    fn add(&mut self, column: usize, row: Items<Pattern>) -> Result<(), OutOfMemory>
        requires { length row ≤ column + 1 }
        ensures count { OnOk result (length self.new.groups.items ≡ length self.old.groups.items) }
        ensures shorter { OnOk result (plain_rows self.new.shorter ≡ plain_rows self.old.shorter ++ shorter column (plain_row row)) }
        ensures groups { OnOk result ((t : ℕ) → t < length self.old.groups.items → plain_rows (get_or self.new.groups.items t []) ≡ plain_rows (get_or self.old.groups.items t []) ++ grown column t (plain_row row)) }
    {
        if row.len() <= column {
            self.shorter.push(row)?;
            return Ok(());
        }
        let mut front = row;
        match front.pop() {
            None => Ok(()),
            Some(cell) => self.add_cell(front, cell),
        }
    }
}

// The rows, of which none reaches behind the column with this number, without that column. Their order is turned round.
pub fn sort_rows(
    alloc: Global,
    rows: Items<Items<Pattern>>,
    column: usize,
) -> Result<Sorted, OutOfMemory>
    requires { AreWithin (column + 1) (plain_rows rows) }
    ensures count { IfOk result (λ all. length all.groups.items ≡ count_of column (plain_rows rows)) }
    ensures groups { IfOk result (λ all. AreGroups column (reverse (plain_rows rows)) (map plain_rows all.groups.items)) }
    ensures shorter { IfOk result (λ all. plain_rows all.shorter ≡ shorter_rows column (reverse (plain_rows rows))) }
{
    let count = column_count(rows.as_slice(), column);
    let mut all = Sorted {
        groups: no_groups(alloc, count)?,
        shorter: Items::new(alloc),
    };
    let mut left = rows;
    while let Some(row) = left.pop() {
        all.add(column, row)?;
    }
    Ok(all)
}
