// What holds of all widths and encodings: functions without a body, whose contracts are the laws.
ghost use Rattle.std.specs.Prelude.{◌≡◌, ℕ, List, length};
ghost use Rattle.rw_core.specs.declared.types.DataTy.{DataTy};
ghost use Rattle.rw_core.specs.Values.{Val};
ghost use Rattle.rw_core.specs.Bits.{IsTable, IsValue, constructors_of, shape_width, width_of, encoding};

/// Two values of a type that have one encoding are equal.
pub fn encoding_tells_value()
    ensures { (types : List DataTy) → IsTable types → (ty : ℕ) (v w : Val) → IsValue types ty v → IsValue types ty w → encoding types ty v ≡ encoding types ty w → v ≡ w }
{}

/// Every encoding has the width of its type.
pub fn encoding_has_width()
    ensures { (types : List DataTy) → IsTable types → (ty : ℕ) (v : Val) → IsValue types ty v → length (encoding types ty v) ≡ width_of types ty }
{}

/// The width of a type comes from the widths of its fields: the greater of 1 and the sum of the tag's width and
/// the greatest sum of the widths of one constructor's fields.
pub fn width_is_of_fields()
    ensures { (types : List DataTy) → IsTable types → (ty : ℕ) → width_of types ty ≡ shape_width (width_of types) (constructors_of types ty) }
{}
