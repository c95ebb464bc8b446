// Lists whose length is known before they are filled: they take no more memory than they need, and so do trees of them.
ghost use Rattle.std.specs.Prelude.{◌≡◌, [], IfOk};

use rw_base::OutOfMemory;
use sqlite_items::Items;
use std::alloc::Global;

/// No items, with room for so many.
pub fn with_room<T>(alloc: Global, len: usize) -> Result<Items<T>, OutOfMemory>
    ensures { IfOk result (λ items. items ≡ []) }
{
    Ok(Items::from_vec(Vec::with_capacity(alloc, len)?))
}
