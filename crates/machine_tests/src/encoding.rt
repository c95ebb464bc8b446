// Widths, encodings and decodings of worked examples.
use bit_layout::{decode, encode, is_table, tag_bits, width};
use rw_base::OutOfMemory;
use rw_core::{DataTy, TyTable};
use sqlite_items::Items;
use std::alloc::Global;
use std::test::Fail;

/// Puts a type with these constructors to the end of the table.
fn push_type(
    alloc: Global,
    table: &mut TyTable,
    constructors: &[&[u32]],
) -> Result<(), OutOfMemory> {
    let mut list = Items::new(alloc);
    for fields in constructors {
        list.push(Items::from_slice(alloc, fields)?)?;
    }
    table.types.push(DataTy { constructors: list })?;
    Ok(())
}

/// The booleans, `data T = A | B Bool | C Bool Bool`, and the unit.
fn letters(alloc: Global) -> Result<TyTable, OutOfMemory> {
    let mut table = TyTable {
        types: Items::new(alloc),
    };
    push_type(alloc, &mut table, &[&[], &[]])?;
    push_type(alloc, &mut table, &[&[], &[0], &[0, 0]])?;
    push_type(alloc, &mut table, &[&[]])?;
    Ok(table)
}

#[test]
fn tags_take_the_least_number_of_bits(rt: HostRuntime) {
    for (constructors, bits) in [(1, 0), (2, 1), (3, 2), (4, 2), (5, 3), (u32::MAX, 32)] {
        assert_eq!(rt; tag_bits(constructors), bits);
    }
}

#[test]
fn widths_of_letters_and_unit(rt: HostRuntime) -> Result<(), Fail> {
    let table = letters(rt.alloc())?;
    assert!(rt; is_table(&table));
    assert_eq!(rt; table.types.len(), 3);
    assert_eq!(rt; width(rt.alloc(), &table, 1)?, 4);
    assert_eq!(rt; width(rt.alloc(), &table, 2)?, 1);
    Ok(())
}

#[test]
fn an_eleventh_level_of_pairs_is_too_wide(rt: HostRuntime) -> Result<(), Fail> {
    let mut table = letters(rt.alloc())?;
    for half in [0, 3, 4, 5, 6, 7, 8, 9, 10, 11] {
        push_type(rt.alloc(), &mut table, &[&[half, half]])?;
    }
    push_type(rt.alloc(), &mut table, &[&[12, 0]])?;
    assert!(rt; is_table(&table));
    assert_eq!(rt; table.types.len(), 14);
    assert_eq!(rt; width(rt.alloc(), &table, 12)?, 1024);
    assert_eq!(rt; width(rt.alloc(), &table, 13)?, 1025);
    Ok(())
}

#[test]
fn letters_are_read_and_written_back(rt: HostRuntime) -> Result<(), Fail> {
    let table = letters(rt.alloc())?;
    assert!(rt; is_table(&table));
    assert_eq!(rt; table.types.len(), 3);
    assert!(rt; width(rt.alloc(), &table, 1)? <= 1024);
    let rows = [
        ([false, false, false, false], 0, 0),
        ([false, true, true, false], 1, 1),
        ([true, false, true, false], 2, 2),
    ];
    for (bits, tag, fields) in rows {
        let value = decode(rt.alloc(), &table, 1, &bits)?.ok_or("no value")?;
        assert_eq!(rt; value.tag, tag);
        assert_eq!(rt; value.fields.len(), fields);
        let written = encode(rt.alloc(), &table, 1, &value)?;
        assert_eq!(rt; written.as_slice(), bits.as_slice());
    }
    Ok(())
}

#[test]
fn other_bits_are_no_letter(rt: HostRuntime) -> Result<(), Fail> {
    let table = letters(rt.alloc())?;
    assert!(rt; is_table(&table));
    let rows = [
        [false, false, false, true],
        [false, true, false, true],
        [true, true, false, false],
    ];
    for bits in rows {
        assert!(rt; decode(rt.alloc(), &table, 1, &bits)?.is_none());
    }
    assert!(rt; decode(rt.alloc(), &table, 1, &[false])?.is_none());
    Ok(())
}
