// The codes of numbers: their bits, most significant first.
ghost use Rattle.std.specs.Prelude.{◌≡◌, ◌<◌, ◌≤◌, ◌^◌, IfOk};
ghost use Rattle.register_machine.specs.Codes as codes;

use bit_layout::tag_bits;
use rw_base::{Bit9, OutOfMemory};
use sqlite_items::Items;
use std::alloc::Global;

/// How many bits tell `n` numbers apart, but at least one.
pub(crate) fn code_width(n: usize) -> u32
    requires some { 0 < n }
    requires few { n < 2 ^ 32 }
    ensures value { result ≡ codes.code_width n }
    ensures enough { n ≤ 2 ^ result }
    ensures narrow { result ≤ 32 }
{
    tag_bits(n as u32).max(1)
}

/// A number in this many bits, most significant first.
pub(crate) fn number_bits(
    alloc: Global,
    width: u32,
    number: usize,
) -> Result<Items<Bit9>, OutOfMemory>
    requires narrow { width ≤ 32 }
    requires fits { number < 2 ^ width }
    ensures { IfOk result (λ bits. bits ≡ codes.number_bits width number) }
{
    let mut bits = Items::new(alloc);
    let mut rest = number;
    let mut left = width;
    while left > 0 {
        left -= 1;
        if rest < 1 << left {
            bits.push(Bit9::Zero)?;
        } else {
            bits.push(Bit9::One)?;
            rest -= 1 << left;
        }
    }
    Ok(bits)
}

/// The code of number `k` among `n`.
pub(crate) fn code(alloc: Global, n: usize, k: usize) -> Result<Items<Bit9>, OutOfMemory>
    requires few { n < 2 ^ 32 }
    requires within { k < n }
    ensures { IfOk result (λ bits. bits ≡ codes.code n k) }
{
    number_bits(alloc, code_width(n), k)
}
