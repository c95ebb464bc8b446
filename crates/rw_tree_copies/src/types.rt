// Copies of types as written.
ghost use Rattle.std.specs.Prelude.{◌≡◌, IfOk};

use rw_base::OutOfMemory;
use rw_tree::Written;
use sqlite_items::{Boxed, Items};
use std::alloc::Global;

/// The same type again.
#[cycle(copying)]
pub fn copied_type(alloc: Global, written: &Written) -> Result<Written, OutOfMemory>
    ensures { IfOk result (λ copy. copy ≡ written.now) }
{
    match written {
        Written::Var(name) => Ok(Written::Var(name.copied(alloc)?)),
        Written::Con(name) => Ok(Written::Con(name.copied(alloc)?)),
        Written::Apply(head, parts) => {
            let head = Boxed::new(alloc, copied_type(alloc, head.get())?)?;
            Ok(Written::Apply(head, copied_types(alloc, parts.as_slice())?))
        }
        Written::Fun(from, to) => {
            let from = Boxed::new(alloc, copied_type(alloc, from.get())?)?;
            let to = Boxed::new(alloc, copied_type(alloc, to.get())?)?;
            Ok(Written::Fun(from, to))
        }
        Written::Tuple(parts) => Ok(Written::Tuple(copied_types(alloc, parts.as_slice())?)),
    }
}

/// The same types again, in order.
#[cycle(copying)]
pub fn copied_types(alloc: Global, types: &[Written]) -> Result<Items<Written>, OutOfMemory>
    ensures { IfOk result (λ copies. copies ≡ types.now) }
{
    let mut copies = Items::new(alloc);
    for written in types {
        copies.push(copied_type(alloc, written)?)?;
    }
    Ok(copies)
}
