// The small parts that functions and processes are made of.
ghost use Rattle.std.specs.Prelude.{◌≡◌, ◌<◌, ◌^◌, [], ◌∷◌, IfOk};
ghost use Rattle.register_machine.specs.OneRegister as one_register;
ghost use Rattle.register_machine.specs.Design as machine;
ghost use Rattle.vh_tree.specs.declared.expr.VExpr.TheVariants.{Name};
ghost use Rattle.vh_tree.specs.declared.stmt.VStmt.TheVariants.{Assign};

use crate::codes::{code, code_width};
use rw_base::OutOfMemory;
use sqlite_items::Items;
use std::alloc::Global;
use vh_tree::{Branch, Ident, Test, VExpr, VStmt, Var};

/// A list of one item.
pub(crate) fn one<T: Drop>(alloc: Global, item: T) -> Result<Items<T>, OutOfMemory>
    ensures { IfOk result (λ items. items ≡ item ∷ []) }
{
    let mut items = Items::new(alloc);
    items.push(item)?;
    Ok(items)
}

/// A list of two items.
pub(crate) fn two<T: Drop>(alloc: Global, first: T, second: T) -> Result<Items<T>, OutOfMemory>
    ensures { IfOk result (λ items. items ≡ first ∷ second ∷ []) }
{
    let mut items = one(alloc, first)?;
    items.push(second)?;
    Ok(items)
}

/// An expression that is a bare name.
pub(crate) fn name(alloc: Global, bytes: &[u8]) -> Result<VExpr, OutOfMemory>
    ensures { IfOk result (λ e. e ≡ Name bytes.now) }
{
    Ok(VExpr::Name(Ident::from_slice(alloc, bytes)?))
}

/// `target := value` in a function, and `target <= value` in a process.
pub(crate) fn assign(alloc: Global, target: &[u8], value: VExpr) -> Result<VStmt, OutOfMemory>
    ensures { IfOk result (λ s. s ≡ Assign target.now value) }
{
    Ok(VStmt::Assign(Ident::from_slice(alloc, target)?, value))
}

/// `target := source`.
pub(crate) fn copied(alloc: Global, target: &[u8], source: &[u8]) -> Result<VStmt, OutOfMemory>
    ensures { IfOk result (λ s. s ≡ machine.copied target.now source.now) }
{
    assign(alloc, target, name(alloc, source)?)
}

/// The assignment of the code of number `k` among `n`.
pub(crate) fn code_assigned(
    alloc: Global,
    target: &[u8],
    n: usize,
    k: usize,
) -> Result<Items<VStmt>, OutOfMemory>
    requires few { n < 2 ^ 32 }
    requires within { k < n }
    ensures { IfOk result (λ s. s ≡ machine.code_assigned target.now n k) }
{
    let value = VExpr::Literal(code(alloc, n, k)?);
    one(alloc, assign(alloc, target, value)?)
}

/// A variable or a signal that holds the codes of `n` numbers.
pub(crate) fn coded(alloc: Global, bytes: &[u8], n: usize) -> Result<Var, OutOfMemory>
    requires some { 0 < n }
    requires few { n < 2 ^ 32 }
    ensures { IfOk result (λ v. v ≡ machine.coded bytes.now n) }
{
    let name = Ident::from_slice(alloc, bytes)?;
    Ok(Var {
        name,
        width: code_width(n),
    })
}

/// `if test then body else other end if ;`
pub(crate) fn when_holds(
    alloc: Global,
    test: Test,
    body: Items<VStmt>,
    other: Items<VStmt>,
) -> Result<VStmt, OutOfMemory>
    ensures { IfOk result (λ s. s ≡ one_register.when_holds test body other) }
{
    let branch = Branch {
        tests: one(alloc, test)?,
        body,
    };
    Ok(VStmt::If(one(alloc, branch)?, other))
}
