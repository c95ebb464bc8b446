// The statements of functions, with places in place of names (IEEE Std 1076-1993, section 8).
//
// Each call here raises `room`, the bits of scratch that is enough for all that was resolved so far.
ghost use Rattle.std.specs.Prelude.{◌≡◌, ◌≤◌, ℕ, [], false, IfOk, map};
ghost use Rattle.std.specs.List.{list_all};
ghost use Rattle.vh_tree.specs.Bits.{Bits};
ghost use Rattle.vh_tree.specs.Functions.{stmt_of as stmt_means, stmts_of as stmts_mean, branch_of as branch_means, test_holds};
ghost use Rattle.vhdl_cycle_flat.specs.Flat.{test_of, stmt_of, branch_of, all_hold, in_order, first_taken, room_tests, room_in_order, room_first};
ghost use Rattle.vhdl_cycle_flat.specs.Names.{function_world_over};
ghost use Rattle.vhdl_cycle_resolve.specs.Over.{slots_in, frames_in, Agree};

use crate::choice::choice;
use crate::expr::resolve_expr;
use crate::room::with_room;
use crate::sized::Known;
use crate::table::get;
use rw_base::{Bit9, OutOfMemory};
use rw_base_tables::Table;
use sqlite_items::Items;
use std::alloc::Global;
use vh_tree::VStmt;
use vhdl_cycle_flat::{Branch, Expr, Slot, Stmt, Test};

// A test that never holds: no bits aren't one.
fn never(alloc: Global) -> Result<Test, OutOfMemory>
    ensures holds { IfOk result (λ r. (n : ℕ) (frame : Bits) → (test_of r).holds n frame ≡ false) }
    ensures room { IfOk result (λ r. (n : ℕ) (frame : Bits) → (test_of r).room n frame ≡ 0) }
{
    Ok(Test {
        left: Expr::Literal(Items::new(alloc)),
        bits: Items::from_slice(alloc, &[Bit9::U])?,
    })
}

fn resolve_test(
    alloc: Global,
    test: &vh_tree::Test,
    slots: &Table<Slot>,
    funs: &Table<Known>,
    room: &mut u32,
) -> Result<Test, OutOfMemory>
    ensures holds { IfOk result (λ r. (n : ℕ) (frame : Bits) → (test_of r).holds n frame ≡ test_holds Bits test.now (function_world_over (slots_in slots.now) (frames_in funs.now) n) frame) }
    ensures room { IfOk result (λ r. (n : ℕ) (frame : Bits) → (test_of r).room n frame ≤ room.new) }
    ensures raised { room.old ≤ room.new }
{
    match test {
        vh_tree::Test::Equal(e, bits) => {
            let left = resolve_expr(alloc, e, slots, funs)?;
            let bits = Items::from_slice(alloc, bits.as_slice())?;
            *room = left.room.max(*room);
            Ok(Test {
                left: left.expr,
                bits,
            })
        }
        vh_tree::Test::Rising => never(alloc),
        vh_tree::Test::Reset => never(alloc),
    }
}

fn resolve_tests(
    alloc: Global,
    tests: &[vh_tree::Test],
    slots: &Table<Slot>,
    funs: &Table<Known>,
    room: &mut u32,
) -> Result<Items<Test>, OutOfMemory>
    ensures holds { IfOk result (λ rs. (n : ℕ) (frame : Bits) → all_hold (map test_of rs) n frame ≡ list_all (λ t. test_holds Bits t (function_world_over (slots_in slots.now) (frames_in funs.now) n) frame) tests.now) }
    ensures room { IfOk result (λ rs. (n : ℕ) (frame : Bits) → room_tests (map test_of rs) n frame ≤ room.new) }
    ensures raised { room.old ≤ room.new }
{
    let mut out = with_room(alloc, tests.len())?;
    for test in tests {
        let r = resolve_test(alloc, test, slots, funs, room)?;
        out.push(r)?;
    }
    Ok(out)
}

// Does nothing.
fn nothing(alloc: Global) -> Stmt
    ensures after { (n : ℕ) (frame : Bits) → (stmt_of result).after n frame ≡ frame }
    ensures room { (n : ℕ) (frame : Bits) → (stmt_of result).room n frame ≡ 0 }
{
    Stmt::If(Items::new(alloc), Items::new(alloc))
}

// Puts places in place of the names of statements.
#[cycle(resolve)]
pub fn resolve_stmts(
    alloc: Global,
    body: &[VStmt],
    slots: &Table<Slot>,
    funs: &Table<Known>,
    room: &mut u32,
) -> Result<Items<Stmt>, OutOfMemory>
    ensures after { IfOk result (λ rs. (n : ℕ) (frame : Bits) → in_order (map stmt_of rs) n frame ≡ stmts_mean Bits body.now (function_world_over (slots_in slots.now) (frames_in funs.now) n) frame) }
    ensures room { IfOk result (λ rs. (n : ℕ) (frame : Bits) → room_in_order (map stmt_of rs) n frame ≤ room.new) }
    ensures raised { room.old ≤ room.new }
{
    let mut out = with_room(alloc, body.len())?;
    for stmt in body {
        let r = resolve_stmt(alloc, stmt, slots, funs, room)?;
        out.push(r)?;
    }
    Ok(out)
}

#[cycle(resolve)]
fn resolve_stmt(
    alloc: Global,
    stmt: &VStmt,
    slots: &Table<Slot>,
    funs: &Table<Known>,
    room: &mut u32,
) -> Result<Stmt, OutOfMemory>
    ensures after { IfOk result (λ r. (n : ℕ) (frame : Bits) → (stmt_of r).after n frame ≡ stmt_means Bits stmt.now (function_world_over (slots_in slots.now) (frames_in funs.now) n) frame) }
    ensures room { IfOk result (λ r. (n : ℕ) (frame : Bits) → (stmt_of r).room n frame ≤ room.new) }
    ensures raised { room.old ≤ room.new }
{
    match stmt {
        VStmt::Assign(name, e) => match get(slots, name) {
            Some(slot) => {
                let value = resolve_expr(alloc, e, slots, funs)?;
                *room = value.room.max(*room);
                Ok(Stmt::Assign(slot.from, value.expr))
            }
            None => Ok(nothing(alloc)),
        },
        VStmt::If(branches, other) => {
            let rows = resolve_branches(alloc, branches.as_slice(), slots, funs, room)?;
            let last = resolve_stmts(alloc, other.as_slice(), slots, funs, room)?;
            Ok(choice(rows, last))
        }
    }
}

#[cycle(resolve)]
fn resolve_branches(
    alloc: Global,
    branches: &[vh_tree::Branch],
    slots: &Table<Slot>,
    funs: &Table<Known>,
    room: &mut u32,
) -> Result<Items<Branch>, OutOfMemory>
    ensures agree { IfOk result (λ rs. (n : ℕ) (frame : Bits) → Agree (function_world_over (slots_in slots.now) (frames_in funs.now) n) n frame (map branch_of rs) (map (branch_means Bits) branches.now)) }
    ensures room { IfOk result (λ rs. (n : ℕ) (frame : Bits) → room_first (map branch_of rs) [] n frame ≤ room.new) }
    ensures raised { room.old ≤ room.new }
{
    let mut out = with_room(alloc, branches.len())?;
    for branch in branches {
        let r = resolve_branch(alloc, branch, slots, funs, room)?;
        out.push(r)?;
    }
    Ok(out)
}

#[cycle(resolve)]
fn resolve_branch(
    alloc: Global,
    branch: &vh_tree::Branch,
    slots: &Table<Slot>,
    funs: &Table<Known>,
    room: &mut u32,
) -> Result<Branch, OutOfMemory>
    ensures tests { IfOk result (λ r. (n : ℕ) (frame : Bits) → all_hold (branch_of r).tests n frame ≡ (branch_means Bits branch.now).0 (function_world_over (slots_in slots.now) (frames_in funs.now) n) frame) }
    ensures body { IfOk result (λ r. (n : ℕ) (frame : Bits) → in_order (branch_of r).body n frame ≡ (branch_means Bits branch.now).1 (function_world_over (slots_in slots.now) (frames_in funs.now) n) frame) }
    ensures tests_room { IfOk result (λ r. (n : ℕ) (frame : Bits) → room_tests (branch_of r).tests n frame ≤ room.new) }
    ensures body_room { IfOk result (λ r. (n : ℕ) (frame : Bits) → room_in_order (branch_of r).body n frame ≤ room.new) }
    ensures raised { room.old ≤ room.new }
{
    let tests = resolve_tests(alloc, branch.tests.as_slice(), slots, funs, room)?;
    let body = resolve_stmts(alloc, branch.body.as_slice(), slots, funs, room)?;
    Ok(Branch { tests, body })
}
