// Copies of lists of names.
ghost use Rattle.std.specs.Prelude.{◌≡◌, IfOk};

use rw_base::{Name, OutOfMemory};
use sqlite_items::Items;
use std::alloc::Global;

/// The same names again, in order.
pub fn copied_names(alloc: Global, names: &[Name]) -> Result<Items<Name>, OutOfMemory>
    ensures { IfOk result (λ copies. copies ≡ names.now) }
{
    let mut copies = Items::new(alloc);
    for name in names {
        copies.push(name.copied(alloc)?)?;
    }
    Ok(copies)
}
