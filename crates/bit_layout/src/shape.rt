// The constructors of a type of the table, and the fields of one of them.
ghost use Rattle.std.specs.Prelude.{◌≡◌, ◌<◌, length};
ghost use Rattle.rw_core.specs.Bits.{constructors_of, fields_of};

use rw_core::DataTy;
use sqlite_items::Items;

/// The constructors of type number `ty`.
pub(crate) fn constructors(types: &[DataTy], ty: usize) -> &[Items<u32>]
    requires { ty < length types.now }
    ensures { result.now ≡ constructors_of types.now ty }
{
    types[ty].constructors.as_slice()
}

/// The types of the fields of constructor number `tag` of type number `ty`.
pub(crate) fn fields(types: &[DataTy], ty: usize, tag: usize) -> &[u32]
    requires within { ty < length types.now }
    requires tagged { tag < length (constructors_of types.now ty) }
    ensures { result.now ≡ fields_of types.now ty tag }
{
    constructors(types, ty)[tag].as_slice()
}
