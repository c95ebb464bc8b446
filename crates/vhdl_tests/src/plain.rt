// Worked designs, read from their texts and computed.

use crate::texts::{LATCH, OSCILLATING, SWITCH, UNWRITTEN};
use rw_base::Bit9;
use sqlite_items::Items;
use std::alloc::Global;
use std::test::Fail;
use vh_tree::{Design, Held, Ident, VExpr};
use vh_tree_plain::{PlainFail, append_call, append_value, bench};
use vhdl_read::read;

type Made<T> = Result<T, PlainFail>;

fn bit(byte: u8) -> Bit9 {
    match byte {
        b'X' => Bit9::X,
        b'0' => Bit9::Zero,
        b'1' => Bit9::One,
        b'Z' => Bit9::Z,
        b'W' => Bit9::W,
        b'L' => Bit9::L,
        b'H' => Bit9::H,
        b'-' => Bit9::Dash,
        _ => Bit9::U,
    }
}

fn bits(alloc: Global, text: &str) -> Made<Items<Bit9>> {
    let mut all = Vec::new(alloc);
    for byte in text.as_bytes() {
        all.push(bit(*byte))?;
    }
    Ok(Items::from_vec(all))
}

fn id(alloc: Global, text: &str) -> Made<Ident> {
    Ok(Ident::from_slice(alloc, text.as_bytes())?)
}

// what the bench reads of one bit, each reading behind the one before; a change that is not quiet after 64 is its number
fn shown(alloc: Global, design: &Design, inputs: &[Items<Bit9>]) -> Made<Result<Vec<Bit9>, u32>> {
    let mut all = Vec::new(alloc);
    if inputs.len() > 8 {
        return Ok(Err(0));
    }
    match bench(alloc, design, 64, inputs)? {
        Err(change) => Ok(Err(change)),
        Ok(readings) => {
            for reading in readings.as_slice() {
                all.extend_from_slice(reading.as_slice())?;
            }
            Ok(Ok(all))
        }
    }
}

#[test]
fn two_state_switch(rt: HostRuntime) -> Result<(), Fail> {
    let alloc = rt.alloc();
    let inputs = vec![in alloc; bits(alloc, "1")?, bits(alloc, "1")?, bits(alloc, "0")?]?;
    let answer = shown(alloc, &read(alloc, SWITCH)?, &inputs)?;
    let wanted = bits(alloc, "0100")?;
    assert!(rt; matches!(&answer, Ok(all) if all.as_slice() == wanted.as_slice()));
    Ok(())
}

#[test]
fn oscillator_never_settles(rt: HostRuntime) -> Result<(), Fail> {
    let alloc = rt.alloc();
    let answer = shown(alloc, &read(alloc, OSCILLATING)?, &[])?;
    assert!(rt; matches!(&answer, Err(1)));
    Ok(())
}

#[test]
fn processes_that_feed_each_other_settle(rt: HostRuntime) -> Result<(), Fail> {
    let alloc = rt.alloc();
    let inputs = vec![in alloc; bits(alloc, "0")?, bits(alloc, "1")?, bits(alloc, "0")?]?;
    let answer = shown(alloc, &read(alloc, LATCH)?, &inputs)?;
    let wanted = bits(alloc, "UU11")?;
    assert!(rt; matches!(&answer, Ok(all) if all.as_slice() == wanted.as_slice()));
    Ok(())
}

#[test]
fn function_calls_an_earlier_one_and_reads_an_unwritten_variable(
    rt: HostRuntime,
) -> Result<(), Fail> {
    let alloc = rt.alloc();
    let design = read(alloc, UNWRITTEN)?;
    let name = id(alloc, "f1")?;
    let mut value = Vec::new(alloc);
    append_call(alloc, &mut value, &name, &[], design.items.as_slice(), 64)?;
    assert!(rt; value.as_slice() == bits(alloc, "UU1-")?.as_slice());
    Ok(())
}

#[test]
fn slices_and_joins_of_nine_values(rt: HostRuntime) -> Result<(), Fail> {
    let alloc = rt.alloc();
    let held = Held {
        name: id(alloc, "v0")?,
        value: bits(alloc, "UX01ZWLH-")?,
    };
    let store = vec![in alloc; held]?;
    let parts = vec![in alloc;
        VExpr::Slice(id(alloc, "v0")?, 6, 4),
        VExpr::Literal(bits(alloc, "H")?),
        VExpr::Slice(id(alloc, "v0")?, 8, 8),
    ]?;
    let mut value = Vec::new(alloc);
    append_value(
        alloc,
        &mut value,
        &VExpr::Join(Items::from_vec(parts)),
        &store,
        &[],
        64,
    )?;
    assert!(rt; value.as_slice() == bits(alloc, "01ZHU")?.as_slice());
    Ok(())
}
