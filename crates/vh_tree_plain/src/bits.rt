// Slices of values, and comparing them.
ghost use Rattle.std.specs.Prelude.{◌≡◌, ◌++◌, OnOk, IfOk, replicate};
ghost use Rattle.rw_base.specs.declared.bit.Bit9.TheVariants.{U};
ghost use Rattle.vh_tree.specs.Bits.{slice_of, same_bits, same_name};

use crate::PlainFail;
use rw_base::Bit9;
use sqlite_items::Items;
use std::alloc::Global;
use vh_tree::Ident;

/// The bits from place `high` down to place `low`, the last bit having place 0.
pub fn slice(bits: &[Bit9], high: u32, low: u32) -> &[Bit9]
    ensures { result.now ≡ slice_of high low bits.now }
{
    let end = high as usize + 1;
    let rest = &bits[bits.len().saturating_sub(end)..];
    &rest[..rest.len().min(end.saturating_sub(low as usize))]
}

/// Whether two values are the same, element by element.
pub fn equal(a: &[Bit9], b: &[Bit9]) -> bool
    ensures { result ≡ same_bits a.now b.now }
{
    a == b
}

/// Whether two names are the same.
pub fn same(a: &Ident, b: &Ident) -> bool
    ensures { result ≡ same_name a.now b.now }
{
    a.as_slice() == b.as_slice()
}

/// Appends a value.
pub fn append(out: &mut Vec<Bit9>, bits: &[Bit9]) -> Result<(), PlainFail>
    ensures { OnOk result (out.new.items ≡ out.old.items ++ bits.now) }
{
    out.extend_from_slice(bits)?;
    Ok(())
}

/// A value of this width, all 'U'.
pub fn unset(alloc: Global, width: u32) -> Result<Items<Bit9>, PlainFail>
    ensures { IfOk result (λ bits. bits ≡ replicate width U) }
{
    let bits = vec![in alloc; Bit9::U; width as usize]?;
    Ok(Items::from_vec(bits))
}
