// How many bits a tag and a type take.
ghost use Rattle.std.specs.Prelude.{◌≡◌, ℕ, ◌<◌, ◌≤◌, ◌^◌, min, length, sum_by, slice_index, All, IfOk};
ghost use Rattle.rw_core.specs.Bits.{IsTable, tag_width, width_of};
ghost use Rattle.bit_layout.specs.Widths.{AreWidths};

use crate::shape::constructors;
use rw_base::OutOfMemory;
use rw_core::{DataTy, TyTable};
use std::alloc::Global;

/// What the width of a type that is wider than 1,024 bits is said to be.
pub(crate) const TOO_WIDE: u64 = 1025;

/// How many bits tell `n` constructors apart: the least number whose power of two is at least `n`.
pub fn tag_bits(n: u32) -> u32
    requires { 0 < n }
    ensures value { result ≡ tag_width n }
    ensures enough { n ≤ 2 ^ result }
    ensures least { (bits : ℕ) → n ≤ 2 ^ bits → result ≤ bits }
{
    if n == 1 { 0 } else { (n - 1).ilog2() + 1 }
}

/// The width in bits of type number `ty` of the table, or 1,025 where it is more than 1,024.
pub fn width(alloc: Global, table: &TyTable, ty: u32) -> Result<u64, OutOfMemory>
    requires table { IsTable table.now.types }
    requires within { ty < length table.now.types }
    ensures { IfOk result (λ bits. bits ≡ min 1025 (width_of table.now.types ty)) }
{
    let widths = widths(alloc, table.types.as_slice(), ty as usize + 1, TOO_WIDE)?;
    Ok(widths[ty as usize])
}

/// The widths of the first `count` types, each at most `cap`: one pass over the table.
pub(crate) fn widths(
    alloc: Global,
    types: &[DataTy],
    count: usize,
    cap: u64,
) -> Result<Vec<u64>, OutOfMemory>
    requires table { IsTable types.now }
    requires within { count ≤ length types.now }
    ensures { IfOk result (λ widths. AreWidths cap types.now count widths.items) }
{
    let mut widths = Vec::new(alloc);
    for ty in 0..count {
        widths.push(type_width(types, ty, &widths, cap))?;
    }
    Ok(widths)
}

/// The width of type number `ty`, at most `cap`, by the widths of the types before it.
fn type_width(types: &[DataTy], ty: usize, widths: &[u64], cap: u64) -> u64
    requires table { IsTable types.now }
    requires within { ty < length types.now }
    requires earlier { AreWidths cap types.now ty widths.now }
    ensures { result ≡ min cap (width_of types.now ty) }
{
    let constructors = constructors(types, ty);
    let mut longest: u64 = 0;
    for fields in constructors {
        longest = longest.max(fields_width(fields.as_slice(), widths, cap));
    }
    u64::from(tag_bits(constructors.len() as u32))
        .saturating_add(longest)
        .max(1)
        .min(cap)
}

/// The sum of the fields' widths, at most `cap`.
fn fields_width(fields: &[u32], widths: &[u64], cap: u64) -> u64
    requires { All (λ field. field < length widths.now) fields.now }
    ensures { result ≡ min cap (sum_by (slice_index widths.now) fields.now) }
{
    let mut sum: u64 = 0;
    for field in fields {
        sum = sum.saturating_add(widths[*field as usize]).min(cap);
    }
    sum
}
