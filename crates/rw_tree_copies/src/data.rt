// Copies of data types.
ghost use Rattle.std.specs.Prelude.{◌≡◌, IfOk};

use crate::names::copied_names;
use crate::types::copied_types;
use rw_base::OutOfMemory;
use rw_tree::{Constructor, DataDecl};
use sqlite_items::Items;
use std::alloc::Global;

fn copied_constructor(alloc: Global, made: &Constructor) -> Result<Constructor, OutOfMemory>
    ensures { IfOk result (λ copy. copy ≡ made.now) }
{
    Ok(Constructor {
        name: made.name.copied(alloc)?,
        fields: copied_types(alloc, made.fields.as_slice())?,
    })
}

/// The same data type again.
pub fn copied_data(alloc: Global, made: &DataDecl) -> Result<DataDecl, OutOfMemory>
    ensures { IfOk result (λ copy. copy ≡ made.now) }
{
    let mut constructors = Items::new(alloc);
    for constructor in made.constructors.as_slice() {
        constructors.push(copied_constructor(alloc, constructor)?)?;
    }
    Ok(DataDecl {
        name: made.name.copied(alloc)?,
        params: copied_names(alloc, made.params.as_slice())?,
        constructors,
    })
}
