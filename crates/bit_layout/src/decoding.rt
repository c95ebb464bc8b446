// From bits to values: each type reads as many bits as it is wide, with a stack of its own for the types that a
// type is inside.
ghost use Rattle.std.specs.Prelude.{◌≡◌, ◌+◌, ◌<◌, ◌≤◌, ◌^◌, ◌↔◌, length, IfOk, IfSome, MatchOption, All, sum_by};
ghost use Rattle.rw_core.specs.Values.{Val, plain};
ghost use Rattle.rw_core.specs.Bits.{IsTable, Encodes, width_of};
ghost use Rattle.bit_layout.specs.Widths.{AreWidths, AreShort};
ghost use Rattle.bit_layout.specs.Parts.{number_of};
ghost use Rattle.bit_layout.specs.Decoding.{ReadsTo, IsRoomy};

use crate::shape::{constructors, fields};
use crate::widths::{tag_bits, widths};
use rw_base::OutOfMemory;
use rw_core::{DataTy, TyTable, Value};
use sqlite_items::Items;
use std::alloc::Global;

/// A value whose tag is read: the types of the fields still to be read, the fields that were read, and the bits
/// that are left for the others and for the zeros behind them.
#[derive(Drop)]
struct Reading<'a> {
    tag: u32,
    fields: &'a [u32],
    built: Items<Value>,
    rest: &'a [bool],
}

/// The value of type number `ty` that these bits encode, or None where they encode none: a tag without a
/// constructor, a zero on the right that isn't one, a field that isn't a value, or another number of bits.
pub fn decode(
    alloc: Global,
    table: &TyTable,
    ty: u32,
    bits: &[bool],
) -> Result<Option<Value>, OutOfMemory>
    requires { IsTable table.now.types }
    ensures { IfOk result (λ answer. MatchOption answer ((v : Val) → Encodes table.now.types ty v bits.now → ⊥) (λ v. Encodes table.now.types ty (plain v) bits.now)) }
{
    let types = table.types.as_slice();
    if ty as usize >= types.len() {
        return Ok(None);
    }
    let widths = widths(alloc, types, ty as usize + 1, bits.len() as u64 + 1)?;
    if widths[ty as usize] != bits.len() as u64 {
        return Ok(None);
    }
    read_value(alloc, types, &widths, ty, bits)
}

/// The value of type number `ty`, which is as wide as the bits.
fn read_value(
    alloc: Global,
    types: &[DataTy],
    widths: &[u64],
    ty: u32,
    bits: &[bool],
) -> Result<Option<Value>, OutOfMemory>
    requires table { IsTable types.now }
    requires widths { AreWidths (length bits.now + 1) types.now (length widths.now) widths.now }
    requires known { length widths.now ≤ length types.now }
    requires within { ty < length widths.now }
    requires whole { length bits.now ≡ width_of types.now ty }
    ensures { IfOk result (λ answer. MatchOption answer ((v : Val) → Encodes types.now ty v bits.now → ⊥) (λ v. Encodes types.now ty (plain v) bits.now)) }
{
    let Some(first) = begin(alloc, types, ty, bits) else {
        return Ok(None);
    };
    let mut top = first;
    let mut stack = Vec::new(alloc);
    loop {
        let Reading {
            tag,
            fields,
            mut built,
            rest,
        } = top;
        match fields.split_first() {
            Some((field, fields)) => {
                let (own, rest) = rest.split_at(widths[*field as usize] as usize);
                let Some(inner) = begin(alloc, types, *field, own) else {
                    return Ok(None);
                };
                stack.push(Reading {
                    tag,
                    fields,
                    built,
                    rest,
                })?;
                top = inner;
            }
            None => {
                if rest.contains(&true) {
                    return Ok(None);
                }
                let value = Value { tag, fields: built };
                let Some(outer) = stack.pop() else {
                    return Ok(Some(value));
                };
                top = outer;
                top.built.push(value)?;
            }
        }
    }
}

/// Reads the tag of a value of type number `ty`, which is as wide as the bits; None where it has no constructor.
fn begin<'a>(alloc: Global, types: &'a [DataTy], ty: u32, bits: &'a [bool]) -> Option<Reading<'a>>
    requires table { IsTable types.now }
    requires within { ty < length types.now }
    requires whole { length bits.now ≡ width_of types.now ty }
    ensures exact { MatchOption result ((v : Val) → Encodes types.now ty v bits.now → ⊥) (λ reading. (v : Val) → Encodes types.now ty v bits.now ↔ ReadsTo types.now reading v) }
    ensures short { IfSome result (λ reading. AreShort types.now ty reading.fields.now) }
    ensures roomy { IfSome result (λ reading. IsRoomy types.now (length bits.now) reading) }
{
    let shape = constructors(types, ty as usize);
    let (tag, rest) = bits.split_at(tag_bits(shape.len() as u32) as usize);
    let tag = read_tag(tag);
    if tag as usize >= shape.len() {
        return None;
    }
    Some(Reading {
        tag,
        fields: fields(types, ty as usize, tag as usize),
        built: Items::new(alloc),
        rest,
    })
}

/// The number that at most 32 bits spell, most significant first.
fn read_tag(bits: &[bool]) -> u32
    requires { length bits.now ≤ 32 }
    ensures { result ≡ number_of bits.now }
{
    let mut number: u64 = 0;
    for bit in bits {
        number = 2 * number + u64::from(*bit);
    }
    number as u32
}
