// The statements of processes, with places in place of names (IEEE Std 1076-1993, section 8).
//
// Each call here raises `room`, the bits of scratch that is enough for all that was resolved so far.
ghost use Rattle.std.specs.Prelude.{◌≡◌, ◌≤◌, ℕ, [], IfOk, map};
ghost use Rattle.std.specs.List.{list_all};
ghost use Rattle.vh_tree.specs.Bits.{Bits};
ghost use Rattle.vh_tree.specs.Functions.{stmt_of as stmt_means, stmts_of as stmts_mean, branch_of as branch_means, test_holds};
ghost use Rattle.vhdl_cycle_flat.specs.Delta.{Coming, check_of, drive_of, row_of, all_hold, in_order, first_taken, room_check, room_checks, room_in_order, room_first};
ghost use Rattle.vhdl_cycle_flat.specs.Names.{process_world_over};
ghost use Rattle.vhdl_cycle_flat.specs.declared.process.World.{World as Asked};
ghost use Rattle.vhdl_cycle_resolve.specs.Over.{slots_in, frames_in, RowsAgree};

use crate::expr::resolve_expr;
use crate::room::with_room;
use crate::sized::Known;
use crate::table::get;
use rw_base::OutOfMemory;
use rw_base_tables::Table;
use sqlite_items::Items;
use std::alloc::Global;
use vh_tree::VStmt;
use vhdl_cycle_flat::{Check, Drive, Row, Slot, Test};

fn resolve_check(
    alloc: Global,
    test: &vh_tree::Test,
    slots: &Table<Slot>,
    funs: &Table<Known>,
    room: &mut u32,
) -> Result<Check, OutOfMemory>
    ensures holds { IfOk result (λ r. (w : Asked) (n : ℕ) (now : Bits) (c : Coming) → check_of r w n now ≡ test_holds Coming test.now (process_world_over (slots_in slots.now) (frames_in funs.now) n now w) c) }
    ensures room { IfOk result (λ r. (n : ℕ) (now : Bits) → room_check r n now ≤ room.new) }
    ensures raised { room.old ≤ room.new }
{
    match test {
        vh_tree::Test::Equal(e, bits) => {
            let left = resolve_expr(alloc, e, slots, funs)?;
            let bits = Items::from_slice(alloc, bits.as_slice())?;
            *room = left.room.max(*room);
            Ok(Check::Equal(Test {
                left: left.expr,
                bits,
            }))
        }
        vh_tree::Test::Rising => Ok(Check::Rising),
        vh_tree::Test::Reset => Ok(Check::Reset),
    }
}

fn resolve_checks(
    alloc: Global,
    tests: &[vh_tree::Test],
    slots: &Table<Slot>,
    funs: &Table<Known>,
    room: &mut u32,
) -> Result<Items<Check>, OutOfMemory>
    ensures holds { IfOk result (λ rs. (w : Asked) (n : ℕ) (now : Bits) (c : Coming) → all_hold rs w n now ≡ list_all (λ t. test_holds Coming t (process_world_over (slots_in slots.now) (frames_in funs.now) n now w) c) tests.now) }
    ensures room { IfOk result (λ rs. (n : ℕ) (now : Bits) → room_checks rs n now ≤ room.new) }
    ensures raised { room.old ≤ room.new }
{
    let mut out = with_room(alloc, tests.len())?;
    for test in tests {
        let r = resolve_check(alloc, test, slots, funs, room)?;
        out.push(r)?;
    }
    Ok(out)
}

// Drives nothing.
fn nothing(alloc: Global) -> Drive
    ensures after { (w : Asked) (n : ℕ) (now : Bits) (c : Coming) → (drive_of result).after w n now c ≡ c }
    ensures room { (n : ℕ) (now : Bits) → (drive_of result).room n now ≡ 0 }
{
    Drive::If(Items::new(alloc), Items::new(alloc))
}

fn choice(rows: Items<Row>, last: Items<Drive>) -> Drive
    ensures after { (w : Asked) (n : ℕ) (now : Bits) (c : Coming) → (drive_of result).after w n now c ≡ first_taken (map row_of rows) (map drive_of last) w n now c }
    ensures room { (n : ℕ) (now : Bits) → (drive_of result).room n now ≡ room_first (map row_of rows) (map drive_of last) n now }
{
    Drive::If(rows, last)
}

// Puts places in place of the names of a process's statements.
#[cycle(resolve)]
pub fn resolve_drives(
    alloc: Global,
    body: &[VStmt],
    slots: &Table<Slot>,
    funs: &Table<Known>,
    room: &mut u32,
) -> Result<Items<Drive>, OutOfMemory>
    ensures after { IfOk result (λ rs. (w : Asked) (n : ℕ) (now : Bits) (c : Coming) → in_order (map drive_of rs) w n now c ≡ stmts_mean Coming body.now (process_world_over (slots_in slots.now) (frames_in funs.now) n now w) c) }
    ensures room { IfOk result (λ rs. (n : ℕ) (now : Bits) → room_in_order (map drive_of rs) n now ≤ room.new) }
    ensures raised { room.old ≤ room.new }
{
    let mut out = with_room(alloc, body.len())?;
    for stmt in body {
        let r = resolve_drive(alloc, stmt, slots, funs, room)?;
        out.push(r)?;
    }
    Ok(out)
}

#[cycle(resolve)]
fn resolve_drive(
    alloc: Global,
    stmt: &VStmt,
    slots: &Table<Slot>,
    funs: &Table<Known>,
    room: &mut u32,
) -> Result<Drive, OutOfMemory>
    ensures after { IfOk result (λ r. (w : Asked) (n : ℕ) (now : Bits) (c : Coming) → (drive_of r).after w n now c ≡ stmt_means Coming stmt.now (process_world_over (slots_in slots.now) (frames_in funs.now) n now w) c) }
    ensures room { IfOk result (λ r. (n : ℕ) (now : Bits) → (drive_of r).room n now ≤ room.new) }
    ensures raised { room.old ≤ room.new }
{
    match stmt {
        VStmt::Assign(name, e) => match get(slots, name) {
            Some(slot) => {
                let value = resolve_expr(alloc, e, slots, funs)?;
                *room = value.room.max(*room);
                Ok(Drive::Assign(slot.number, slot.from, value.expr))
            }
            None => Ok(nothing(alloc)),
        },
        VStmt::If(branches, other) => {
            let rows = resolve_rows(alloc, branches.as_slice(), slots, funs, room)?;
            let last = resolve_drives(alloc, other.as_slice(), slots, funs, room)?;
            Ok(choice(rows, last))
        }
    }
}

#[cycle(resolve)]
fn resolve_rows(
    alloc: Global,
    branches: &[vh_tree::Branch],
    slots: &Table<Slot>,
    funs: &Table<Known>,
    room: &mut u32,
) -> Result<Items<Row>, OutOfMemory>
    ensures agree { IfOk result (λ rs. (w : Asked) (n : ℕ) (now : Bits) (c : Coming) → RowsAgree (process_world_over (slots_in slots.now) (frames_in funs.now) n now w) w n now c (map row_of rs) (map (branch_means Coming) branches.now)) }
    ensures room { IfOk result (λ rs. (n : ℕ) (now : Bits) → room_first (map row_of rs) [] n now ≤ room.new) }
    ensures raised { room.old ≤ room.new }
{
    let mut out = with_room(alloc, branches.len())?;
    for branch in branches {
        let r = resolve_row(alloc, branch, slots, funs, room)?;
        out.push(r)?;
    }
    Ok(out)
}

#[cycle(resolve)]
fn resolve_row(
    alloc: Global,
    branch: &vh_tree::Branch,
    slots: &Table<Slot>,
    funs: &Table<Known>,
    room: &mut u32,
) -> Result<Row, OutOfMemory>
    ensures checks { IfOk result (λ r. (w : Asked) (n : ℕ) (now : Bits) (c : Coming) → all_hold (row_of r).checks w n now ≡ (branch_means Coming branch.now).0 (process_world_over (slots_in slots.now) (frames_in funs.now) n now w) c) }
    ensures body { IfOk result (λ r. (w : Asked) (n : ℕ) (now : Bits) (c : Coming) → in_order (row_of r).body w n now c ≡ (branch_means Coming branch.now).1 (process_world_over (slots_in slots.now) (frames_in funs.now) n now w) c) }
    ensures checks_room { IfOk result (λ r. (n : ℕ) (now : Bits) → room_checks (row_of r).checks n now ≤ room.new) }
    ensures body_room { IfOk result (λ r. (n : ℕ) (now : Bits) → room_in_order (row_of r).body n now ≤ room.new) }
    ensures raised { room.old ≤ room.new }
{
    let checks = resolve_checks(alloc, branch.tests.as_slice(), slots, funs, room)?;
    let body = resolve_drives(alloc, branch.body.as_slice(), slots, funs, room)?;
    Ok(Row { checks, body })
}
