// Balanced decisions: nested tests on the bits of a value, the highest first, down to the statements of a number.
ghost use Rattle.std.specs.Prelude.{◌≡◌, ◌<◌, ◌≤◌, ◌^◌, ℕ, List, IfOk};
ghost use Rattle.register_machine.specs.Decision as decisions;
ghost use Rattle.register_machine.specs.Design.{decide_code};
ghost use Rattle.vh_tree.specs.declared.stmt.VStmt as statement;

use crate::codes::code_width;
use crate::parts::{one, when_holds};
use rw_base::{Bit9, OutOfMemory};
use sqlite_items::Items;
use std::alloc::Global;
use vh_tree::{Ident, Test, VExpr, VStmt};

/// Statements for each of some numbers.
pub(crate) trait Leaves {
    /// Whether a number has statements.
    ghost has: { Self → ℕ → Type 0 };

    /// The statements of a number.
    ghost leaf: { Self → ℕ → List statement.VStmt };

    /// Makes the statements of a number.
    fn statements(&self, alloc: Global, number: usize) -> Result<Items<VStmt>, OutOfMemory>
        requires { has self.now number }
        ensures { IfOk result (λ s. s ≡ leaf self.now number) };
}

/// `if tested ( bit downto bit ) = "0" then low else high end if ;`
fn either(
    alloc: Global,
    tested: &[u8],
    bit: u32,
    low: Items<VStmt>,
    high: Items<VStmt>,
) -> Result<Items<VStmt>, OutOfMemory>
    ensures { IfOk result (λ s. s ≡ decisions.either tested.now bit low high) }
{
    let slice = VExpr::Slice(Ident::from_slice(alloc, tested)?, bit, bit);
    let test = Test::Equal(slice, one(alloc, Bit9::Zero)?);
    one(alloc, when_holds(alloc, test, low, high)?)
}

/// The statements of the number, from `base` on and below `n`, that the last `left` bits of a name spell.
fn decision<L: Leaves>(
    alloc: Global,
    tested: &[u8],
    n: usize,
    left: u32,
    base: usize,
    leaves: &L,
) -> Result<Items<VStmt>, OutOfMemory>
    requires few { n < 2 ^ 32 }
    requires narrow { left ≤ 32 }
    requires within { base < n }
    requires all { (k : ℕ) → k < n → L.has leaves.now k }
    ensures { IfOk result (λ s. s ≡ decisions.decide tested.now n left base (L.leaf leaves.now)) }
{
    if left == 0 {
        return leaves.statements(alloc, base);
    }
    let bit = left - 1;
    let middle = base + (1 << bit);
    let low = decision(alloc, tested, n, bit, base, leaves)?;
    if middle >= n {
        return Ok(low);
    }
    let high = decision(alloc, tested, n, bit, middle, leaves)?;
    either(alloc, tested, bit, low, high)
}

/// The decision for each of `n` numbers by their codes.
pub(crate) fn code_decision<L: Leaves>(
    alloc: Global,
    tested: &[u8],
    n: usize,
    leaves: &L,
) -> Result<Items<VStmt>, OutOfMemory>
    requires some { 0 < n }
    requires few { n < 2 ^ 32 }
    requires all { (k : ℕ) → k < n → L.has leaves.now k }
    ensures { IfOk result (λ s. s ≡ decide_code tested.now n (L.leaf leaves.now)) }
{
    decision(alloc, tested, n, code_width(n), 0, leaves)
}
