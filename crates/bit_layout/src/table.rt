// Whether a table is well formed.
ghost use Rattle.std.specs.Prelude.{◌≡◌, ◌<◌, ◌↔◌, IsTrue, All};
ghost use Rattle.rw_core.specs.Bits.{IsTable};
ghost use Rattle.bit_layout.specs.Tables.{IsDataType};

use rw_core::{DataTy, TyTable};

/// Whether each type of the table has from 1 to 2^32 - 1 constructors, whose fields name earlier types.
pub fn is_table(table: &TyTable) -> bool
    ensures { IsTrue result ↔ IsTable table.now.types }
{
    for (number, ty) in table.types.as_slice().iter().enumerate() {
        if !is_data_type(ty, number) {
            return false;
        }
    }
    true
}

/// Whether a type has from 1 to 2^32 - 1 constructors, whose fields name types before this number.
fn is_data_type(ty: &DataTy, number: usize) -> bool
    ensures { IsTrue result ↔ IsDataType number ty.now.constructors }
{
    let constructors = ty.constructors.as_slice();
    if constructors.is_empty() || constructors.len() > u32::MAX as usize {
        return false;
    }
    for fields in constructors {
        if !are_below(fields.as_slice(), number) {
            return false;
        }
    }
    true
}

/// Whether all these types are before this number.
fn are_below(fields: &[u32], number: usize) -> bool
    ensures { IsTrue result ↔ All (λ field. field < number) fields.now }
{
    fields.iter().all(|field| (*field as usize) < number)
}
