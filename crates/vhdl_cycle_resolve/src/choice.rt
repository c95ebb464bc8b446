// A choice of a function. One that a single bit of a place decides is a statement of its own, so that a decision over
// the bits of a value is one node for each bit.
ghost use Rattle.std.specs.Prelude.{◌≡◌, ◌≤◌, ℕ, [], ◌∷◌, length, IfSome, map};
ghost use Rattle.vh_tree.specs.Bits.{Bits};
ghost use Rattle.vhdl_cycle_flat.specs.Flat.{has_bit, test_of, stmt_of, branch_of, all_hold, first_taken, room_first};
ghost use Rattle.vhdl_cycle_resolve.specs.Over.{IsDecidedBy};

use sqlite_items::Items;
use vhdl_cycle_flat::{Bit, Branch, Expr, Stmt, Test};

// The bit that a test asks for, where it asks for one of a place.
fn bit_of(test: &Test) -> Option<Bit>
    ensures { IfSome result (λ bit. (n : ℕ) (frame : Bits) → (test_of test.now).holds n frame ≡ has_bit bit frame) }
{
    let Expr::Slice(from, len, high, low) = &test.left else {
        return None;
    };
    let [value] = test.bits.as_slice() else {
        return None;
    };
    if high != low {
        return None;
    }
    Some(Bit {
        from: *from,
        len: *len,
        place: *low,
        value: *value,
    })
}

// The bit that alone decides whether the one branch is taken.
fn deciding(rows: &[Branch]) -> Option<Bit>
    ensures { IfSome result (λ bit. IsDecidedBy bit rows.now) }
{
    let [branch] = rows else {
        return None;
    };
    let [test] = branch.tests.as_slice() else {
        return None;
    };
    bit_of(test)
}

fn when(bit: Bit, branch: Branch, last: Items<Stmt>) -> Stmt
    requires { (n : ℕ) (frame : Bits) → all_hold (branch_of branch).tests n frame ≡ has_bit bit frame }
    ensures after { (n : ℕ) (frame : Bits) → (stmt_of result).after n frame ≡ first_taken (branch_of branch ∷ []) (map stmt_of last) n frame }
    ensures room { (n : ℕ) (frame : Bits) → (stmt_of result).room n frame ≤ room_first (branch_of branch ∷ []) (map stmt_of last) n frame }
{
    let Branch {
        tests: _tests,
        body,
    } = branch;
    Stmt::When(bit, body, last)
}

/// The first branch whose tests hold, or else the last statements.
pub fn choice(rows: Items<Branch>, last: Items<Stmt>) -> Stmt
    ensures after { (n : ℕ) (frame : Bits) → (stmt_of result).after n frame ≡ first_taken (map branch_of rows) (map stmt_of last) n frame }
    ensures room { (n : ℕ) (frame : Bits) → (stmt_of result).room n frame ≤ room_first (map branch_of rows) (map stmt_of last) n frame }
{
    let Some(bit) = deciding(rows.as_slice()) else {
        return Stmt::If(rows, last);
    };
    let mut rows = rows;
    match rows.pop() {
        Some(branch) => when(bit, branch, last),
        None => Stmt::If(rows, last),
    }
}
