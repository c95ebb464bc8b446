// What the processes see in a delta cycle, and what their statements do.
ghost use Rattle.std.specs.Prelude.{◌≡◌, ◌∷◌, [], OnOk, IfOk, codes};
ghost use Rattle.std.specs.List.{list_all};
ghost use Rattle.rw_base.specs.declared.bit.Bit9.TheVariants.{One};
ghost use Rattle.vh_tree.specs.Bits.{same_bits, same_name};
ghost use Rattle.vh_tree.specs.Functions.{calls_of, test_holds, stmt_of, stmts_of};
ghost use Rattle.vh_tree.specs.DeltaCycle.{Wires, put, seen_at, has_event, clock_rises, rises, runs, process_world};

use crate::PlainFail;
use crate::bits::equal;
use crate::expr::append_value;
use rw_base::Bit9;
use sqlite_items::Items;
use std::alloc::Global;
use vh_tree::{Held, Item, Moment, Process, Test, VStmt, Wire, rising};

/// How deep the calls of one expression may go.
const LEVELS: u32 = 4096;

fn same_bytes(a: &[u8], b: &[u8]) -> bool
    ensures { result ≡ same_name a.now b.now }
{
    a == b
}

/// Makes a value pending.
pub fn set_pending(wires: &mut Vec<Wire>, name: &[u8], value: Items<Bit9>)
    ensures { wires.new.items ≡ put name.now value wires.old.items }
{
    for at in 0..wires.len() {
        let wire = &mut wires[at];
        if same_bytes(wire.name.as_slice(), name) {
            wire.pending = Some(value);
            return;
        }
    }
}

/// The value of a port or a signal, and nothing where there is none.
pub fn value_at<'a>(store: &'a [Held], name: &[u8]) -> &'a [Bit9]
    ensures { result.now ≡ seen_at store.now name.now }
{
    for held in store {
        if same_bytes(held.name.as_slice(), name) {
            return held.value.as_slice();
        }
    }
    &[]
}

fn event_at(moment: &Moment, name: &[u8]) -> bool
    ensures { result ≡ has_event moment.now name.now }
{
    !moment.starting
        && !equal(
            value_at(moment.before.as_slice(), name),
            value_at(moment.current.as_slice(), name),
        )
}

fn rose(last: &[Bit9], now: &[Bit9]) -> bool
    ensures { result ≡ rises last.now now.now }
{
    match (last, now) {
        ([last], [now]) => rising(*last, *now),
        _ => false,
    }
}

fn clock_rose(moment: &Moment) -> bool
    ensures { result ≡ clock_rises moment.now }
{
    event_at(moment, b"clk")
        && rose(
            value_at(moment.before.as_slice(), b"clk"),
            value_at(moment.current.as_slice(), b"clk"),
        )
}

fn reset_holds(moment: &Moment) -> bool
    ensures { result ≡ same_bits (seen_at moment.now.current (codes "rst")) (One ∷ []) }
{
    equal(value_at(moment.current.as_slice(), b"rst"), &[Bit9::One])
}

/// Whether a process runs in this moment.
pub fn has_turn(moment: &Moment, process: &Process) -> bool
    ensures { result ≡ runs moment.now process.now }
{
    if moment.starting {
        return true;
    }
    for name in process.sensitive.as_slice() {
        if event_at(moment, name.as_slice()) {
            return true;
        }
    }
    false
}

fn holds(
    alloc: Global,
    test: &Test,
    moment: &Moment,
    items: &[Item],
    wires: &[Wire],
) -> Result<bool, PlainFail>
    ensures { IfOk result (λ b. b ≡ test_holds Wires test.now (process_world (calls_of items.now) moment.now) wires.now) }
{
    match test {
        Test::Equal(e, bits) => {
            let mut value = Vec::new(alloc);
            append_value(
                alloc,
                &mut value,
                e,
                moment.current.as_slice(),
                items,
                LEVELS,
            )?;
            Ok(equal(&value, bits.as_slice()))
        }
        Test::Rising => Ok(clock_rose(moment)),
        Test::Reset => Ok(reset_holds(moment)),
    }
}

fn all_hold(
    alloc: Global,
    tests: &[Test],
    moment: &Moment,
    items: &[Item],
    wires: &[Wire],
) -> Result<bool, PlainFail>
    ensures { IfOk result (λ b. b ≡ list_all (λ t. test_holds Wires t (process_world (calls_of items.now) moment.now) wires.now) tests.now) }
{
    for test in tests {
        if !holds(alloc, test, moment, items, wires)? {
            return Ok(false);
        }
    }
    Ok(true)
}

/// Runs statements of a process, in order.
#[cycle(drive)]
pub fn drive_all(
    alloc: Global,
    body: &[VStmt],
    moment: &Moment,
    items: &[Item],
    wires: &mut Vec<Wire>,
) -> Result<(), PlainFail>
    ensures { OnOk result (wires.new.items ≡ stmts_of Wires body.now (process_world (calls_of items.now) moment.now) wires.old.items) }
{
    for stmt in body {
        drive(alloc, stmt, moment, items, wires)?;
    }
    Ok(())
}

#[cycle(drive)]
fn drive(
    alloc: Global,
    stmt: &VStmt,
    moment: &Moment,
    items: &[Item],
    wires: &mut Vec<Wire>,
) -> Result<(), PlainFail>
    ensures { OnOk result (wires.new.items ≡ stmt_of Wires stmt.now (process_world (calls_of items.now) moment.now) wires.old.items) }
{
    match stmt {
        VStmt::Assign(name, e) => {
            let mut value = Vec::new(alloc);
            append_value(
                alloc,
                &mut value,
                e,
                moment.current.as_slice(),
                items,
                LEVELS,
            )?;
            set_pending(wires, name.as_slice(), Items::from_vec(value));
            Ok(())
        }
        VStmt::If(branches, other) => {
            for branch in branches.as_slice() {
                if all_hold(alloc, branch.tests.as_slice(), moment, items, wires)? {
                    return drive_all(alloc, branch.body.as_slice(), moment, items, wires);
                }
            }
            drive_all(alloc, other.as_slice(), moment, items, wires)
        }
    }
}
