// Copies of patterns.
ghost use Rattle.std.specs.Prelude.{◌≡◌, IfOk};

use rw_base::OutOfMemory;
use rw_tree::Pat;
use sqlite_items::Items;
use std::alloc::Global;

/// The same pattern again, annotations included.
#[cycle(copying)]
pub fn copied_pattern<A: Copy + Drop>(
    alloc: Global,
    pattern: &Pat<A>,
) -> Result<Pat<A>, OutOfMemory>
    ensures { IfOk result (λ copy. copy ≡ pattern.now) }
{
    match pattern {
        Pat::Wild(at) => Ok(Pat::Wild(*at)),
        Pat::Var(at, name) => Ok(Pat::Var(*at, name.copied(alloc)?)),
        Pat::Con(at, name, parts) => {
            let name = name.copied(alloc)?;
            Ok(Pat::Con(*at, name, copied_patterns(alloc, parts.as_slice())?))
        }
        Pat::Tuple(at, parts) => Ok(Pat::Tuple(*at, copied_patterns(alloc, parts.as_slice())?)),
    }
}

/// The same patterns again, in order, annotations included.
#[cycle(copying)]
pub fn copied_patterns<A: Copy + Drop>(
    alloc: Global,
    patterns: &[Pat<A>],
) -> Result<Items<Pat<A>>, OutOfMemory>
    ensures { IfOk result (λ copies. copies ≡ patterns.now) }
{
    let mut copies = Items::new(alloc);
    for pattern in patterns {
        copies.push(copied_pattern(alloc, pattern)?)?;
    }
    Ok(copies)
}
