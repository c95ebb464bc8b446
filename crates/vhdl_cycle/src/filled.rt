// Buffers as they are made.
ghost use Rattle.std.specs.Prelude.{◌≡◌, IfOk, replicate};

use rw_base::OutOfMemory;
use std::alloc::Global;

/// A buffer of this length, with one value throughout.
pub fn filled<T: Copy>(alloc: Global, value: T, len: usize) -> Result<Vec<T>, OutOfMemory>
    ensures { IfOk result (λ filled. filled.items ≡ replicate len value) }
{
    let mut filled = Vec::new(alloc);
    filled.resize(len, value)?;
    Ok(filled)
}
