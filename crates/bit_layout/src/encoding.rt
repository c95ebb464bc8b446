// From values to bits: a walk over the value with a stack of its own, since values can nest as deep as the table
// has types.
ghost use Rattle.std.specs.Prelude.{◌≡◌, ◌+◌, ◌-◌, ◌<◌, ◌≤◌, ◌^◌, ◌++◌, length, IfOk, OnOk, MatchOption, ◌⊎◌, []};
ghost use Rattle.rw_core.specs.Values.{plain, plains, vals};
ghost use Rattle.rw_core.specs.Bits.{IsTable, IsValue, binary, fields_of, padded, width_of, encoding};
ghost use Rattle.bit_layout.specs.Widths.{AreWidths, AreShort};
ghost use Rattle.bit_layout.specs.Encoding.{IsWriting, IsNext, closed};

use crate::shape::{constructors, fields};
use crate::widths::{TOO_WIDE, tag_bits, widths};
use rw_base::OutOfMemory;
use rw_core::{DataTy, TyTable, Value};
use std::alloc::Global;

/// A value whose tag is written: the fields still to be written, with their types, and where its bits end.
#[derive(Drop)]
struct Writing<'a> {
    fields: &'a [u32],
    values: &'a [Value],
    end: usize,
}

/// The bits of a value of type number `ty`, whose width is at most 1,024.
pub fn encode(
    alloc: Global,
    table: &TyTable,
    ty: u32,
    value: &Value,
) -> Result<Vec<bool>, OutOfMemory>
    requires table { IsTable table.now.types }
    requires value { IsValue table.now.types ty (plain value.now) }
    requires narrow { width_of table.now.types ty ≤ 1024 }
    ensures { IfOk result (λ bits. bits.items ≡ encoding table.now.types ty (plain value.now)) }
{
    let types = table.types.as_slice();
    let widths = widths(alloc, types, ty as usize + 1, TOO_WIDE)?;
    let mut bits = Vec::new(alloc);
    let mut stack = Vec::new(alloc);
    stack.push(begin(types, &widths, ty, value, &mut bits)?)?;
    while let Some(top) = stack.pop() {
        match next_field(&top) {
            Some((field, value, others)) => {
                stack.push(others)?;
                stack.push(begin(types, &widths, field, value, &mut bits)?)?;
            }
            None => fill(&mut bits, top.end)?,
        }
    }
    Ok(bits)
}

/// The first field to be written, with its type, and what is to be written after it.
fn next_field<'a>(top: &Writing<'a>) -> Option<(u32, &'a Value, Writing<'a>)>
    ensures { MatchOption result ((top.now.fields.now ≡ []) ⊎ (top.now.values.now ≡ [])) (λ next. IsNext top.now next.0 next.1.now next.2) }
{
    let (field, fields) = top.fields.split_first()?;
    let (value, values) = top.values.split_first()?;
    let end = top.end;
    Some((
        *field,
        value,
        Writing {
            fields,
            values,
            end,
        },
    ))
}

/// Writes the tag of a value of type number `ty`.
fn begin<'a>(
    types: &'a [DataTy],
    widths: &[u64],
    ty: u32,
    value: &'a Value,
    bits: &mut Vec<bool>,
) -> Result<Writing<'a>, OutOfMemory>
    requires table { IsTable types.now }
    requires widths { AreWidths 1025 types.now (length widths.now) widths.now }
    requires known { length widths.now ≤ length types.now }
    requires within { ty < length widths.now }
    requires value { IsValue types.now ty (plain value.now) }
    requires narrow { width_of types.now ty ≤ 1024 }
    ensures writes { IfOk result (λ writing. closed types.now writing bits.new.items ≡ bits.old.items ++ encoding types.now ty (plain value.now)) }
    ensures typed { IfOk result (λ writing. IsWriting types.now (length widths.now) writing) }
    ensures short { IfOk result (λ writing. AreShort types.now ty writing.fields.now) }
{
    let end = bits.len() + widths[ty as usize] as usize;
    write_tag(
        bits,
        tag_bits(constructors(types, ty as usize).len() as u32),
        value.tag,
    )?;
    Ok(Writing {
        fields: fields(types, ty as usize, value.tag as usize),
        values: value.fields.as_slice(),
        end,
    })
}

/// Appends the lowest `width` bits of a tag, most significant first.
fn write_tag(bits: &mut Vec<bool>, width: u32, tag: u32) -> Result<(), OutOfMemory>
    requires { width ≤ 32 }
    ensures { OnOk result (bits.new.items ≡ bits.old.items ++ binary width tag) }
{
    for place in (0..width).rev() {
        bits.push((u64::from(tag) >> place) % 2 == 1)?;
    }
    Ok(())
}

/// Appends zeros up to the bit number `end`.
fn fill(bits: &mut Vec<bool>, end: usize) -> Result<(), OutOfMemory>
    ensures { OnOk result (bits.new.items ≡ padded end bits.old.items) }
{
    let missing = end.saturating_sub(bits.len());
    for _ in 0..missing {
        bits.push(false)?;
    }
    Ok(())
}
