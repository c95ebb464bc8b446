// From the lines of a trace to the values that they encode.
ghost use Rattle.std.specs.Prelude.{◌≤◌, length, map};
ghost use Rattle.rw_core.specs.Bits.{IsTable};
ghost use Rattle.rw_core.specs.Values.{plain};
ghost use Rattle.rw_trace.specs.Traces.{most_lines};
ghost use Rattle.rw_trace.specs.TraceValues.{GivesValues};

use crate::TraceFail;
use bit_layout::decode;
use rw_core::{TyTable, Value};
use std::alloc::Global;

/// The value of type number `ty` of the table that each line encodes, the leftmost bit first. It is refused with the
/// number of the first line, counted from 1, that encodes none: a tag without a constructor, a zero on the right that
/// isn't one, a field that isn't a value, or another number of bits.
pub fn to_values(
    alloc: Global,
    table: &TyTable,
    ty: u32,
    lines: &[Vec<bool>],
) -> Result<Vec<Value>, TraceFail>
    requires table { IsTable table.now.types }
    requires few { length lines.now ≤ most_lines }
    ensures { GivesValues table.now.types ty (map (λ line. line.items) lines.now) (λ values. map plain values.items) result }
{
    let mut values = Vec::new(alloc);
    let mut number = 1;
    for line in lines {
        match decode(alloc, table, ty, line)? {
            None => return Err(TraceFail::BadLine(number)),
            Some(value) => values.push(value)?,
        }
        number += 1;
    }
    Ok(values)
}
