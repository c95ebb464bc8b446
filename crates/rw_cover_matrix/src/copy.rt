// Copies of patterns and of rows.
ghost use Rattle.std.specs.Prelude.{◌≡◌, ◌++◌, IfOk};

use crate::Pattern;
use rw_base::OutOfMemory;
use sqlite_items::Items;
use std::alloc::Global;

impl Pattern {
    // The same pattern again.
    #[cycle(copying)]
    fn copied(&self, alloc: Global) -> Result<Pattern, OutOfMemory>
        ensures { IfOk result (λ copy. copy ≡ self.now) }
    {
        match self {
            Pattern::Any => Ok(Pattern::Any),
            Pattern::Con(place, among, parts) => {
                let parts = Pattern::copied_all(alloc, parts.as_slice())?;
                Ok(Pattern::Con(*place, *among, parts))
            }
        }
    }

    // The same patterns again, in order.
    #[cycle(copying)]
    fn copied_all(alloc: Global, patterns: &[Pattern]) -> Result<Items<Pattern>, OutOfMemory>
        ensures { IfOk result (λ copies. copies ≡ patterns.now) }
    {
        let mut copies = Items::new(alloc);
        for pattern in patterns {
            copies.push(pattern.copied(alloc)?)?;
        }
        Ok(copies)
    }
}

// These rows, and copies of those behind them.
pub fn with_copies(
    alloc: Global,
    rows: Items<Items<Pattern>>,
    others: &[Items<Pattern>],
) -> Result<Items<Items<Pattern>>, OutOfMemory>
    ensures { IfOk result (λ all. all ≡ rows ++ others.now) }
{
    let mut all = rows;
    for other in others {
        all.push(Pattern::copied_all(alloc, other.as_slice())?)?;
    }
    Ok(all)
}
