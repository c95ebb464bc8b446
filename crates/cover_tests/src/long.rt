// Rows with a constructor in each of many columns: the depth of calls doesn't grow with them.

use rw_base::OutOfMemory;
use rw_cover_matrix::{Pattern, covers};
use sqlite_items::Items;
use std::alloc::Global;
use std::test::Fail;

// More columns than a source of 262,144 bytes has patterns.
const COLUMNS: u32 = 150_000;

// A row with the constructor of this place, of so many and without fields, in each column.
fn row(alloc: Global, place: usize, among: usize) -> Result<Items<Pattern>, OutOfMemory> {
    let mut row = Items::new(alloc);
    for _ in 0..COLUMNS {
        row.push(Pattern::Con(place, among, Items::new(alloc)))?;
    }
    Ok(row)
}

// So many rows, with a constructor each, from the first on.
fn rows(alloc: Global, count: usize, among: usize) -> Result<Items<Items<Pattern>>, OutOfMemory> {
    let mut rows = Items::new(alloc);
    for place in 0..count {
        rows.push(row(alloc, place, among)?)?;
    }
    Ok(rows)
}

#[test]
fn many_columns_need_no_deep_calls(rt: HostRuntime) -> Result<(), Fail> {
    let alloc = rt.alloc();
    for (count, among, covered) in [(1, 1, true), (1, 2, false), (2, 2, false)] {
        let matrix = rows(alloc, count, among).map_err(|_| "memory")?;
        let answer = covers(alloc, matrix).map_err(|_| "memory")?;
        assert_eq!(rt; answer, covered);
    }
    Ok(())
}
