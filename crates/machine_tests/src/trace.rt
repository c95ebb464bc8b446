// Tests of what no clause says: worked traces, and the answers of a call with ample memory.

use bit_layout::is_table;
use rw_base::{Bit9, OutOfMemory};
use rw_core::{DataTy, TyTable};
use rw_trace::{TraceFail, line, to_bits, to_values};
use sqlite_items::Items;
use std::alloc::Global;
use std::test::Fail;

/// One type, of three constructors without fields.
fn three(alloc: Global) -> Result<TyTable, OutOfMemory> {
    let mut constructors = Items::new(alloc);
    for _constructor in 0..3 {
        constructors.push(Items::new(alloc))?;
    }
    let mut types = Items::new(alloc);
    types.push(DataTy { constructors })?;
    Ok(TyTable { types })
}

#[test]
fn traces_are_read_or_refused(rt: HostRuntime) -> Result<(), Fail> {
    let alloc = rt.alloc();
    for (text, width, lines, bad) in [
        (b"".as_slice(), 1, 0, 0),
        (b"1\n0\n", 1, 2, 0),
        (b"1\r\n1", 1, 2, 0),
        (b"011\n", 3, 1, 0),
        (b"2", 1, 0, 1),
        (b"1\n\n1\n", 1, 0, 2),
        (b"1\n1\r", 1, 0, 2),
        (b"1\n01\n", 1, 0, 2),
    ] {
        match to_bits(alloc, text, width) {
            Ok(found) => {
                assert_eq!(rt; bad, 0);
                assert_eq!(rt; found.len(), lines);
            }
            Err(fail) => assert_eq!(rt; fail, TraceFail::BadLine(bad)),
        }
    }
    Ok(())
}

#[test]
fn nine_values_have_their_letters(rt: HostRuntime) -> Result<(), Fail> {
    let bits = [
        Bit9::U,
        Bit9::X,
        Bit9::Zero,
        Bit9::One,
        Bit9::Z,
        Bit9::W,
        Bit9::L,
        Bit9::H,
        Bit9::Dash,
    ];
    let text = line(rt.alloc(), &bits).map_err(|_| "memory")?;
    assert_eq!(rt; text.bytes(), b"UX01ZWLH-\n".as_slice());
    Ok(())
}

#[test]
fn lines_are_values_or_the_first_that_is_none(rt: HostRuntime) -> Result<(), Fail> {
    let alloc = rt.alloc();
    let table = three(alloc).map_err(|_| "memory")?;
    assert!(rt; is_table(&table));
    for (text, values, bad) in [
        (b"".as_slice(), 0, 0),
        (b"00\n01\n10\n", 3, 0),
        (b"11\n", 0, 1),
        (b"00\n11\n11\n", 0, 2),
    ] {
        let lines = to_bits(alloc, text, 2).map_err(|_| "memory")?;
        if lines.len() > 1_048_576 || !is_table(&table) {
            return Err("too many lines")?;
        }
        match to_values(alloc, &table, 0, &lines) {
            Ok(found) => {
                assert_eq!(rt; bad, 0);
                assert_eq!(rt; found.len(), values);
                for (at, value) in found.iter().enumerate() {
                    assert_eq!(rt; value.tag as usize, at);
                }
            }
            Err(fail) => assert_eq!(rt; fail, TraceFail::BadLine(bad)),
        }
    }
    Ok(())
}
