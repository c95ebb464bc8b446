// V7: a function is used behind its declaration alone.
ghost use Rattle.std.specs.Prelude.{◌≡◌, IfOk, OnOk, not, map};
ghost use Rattle.std.specs.List.{list_all};
ghost use Rattle.vh_tree.specs.Bits.{Bytes};
ghost use Rattle.vh_tree.specs.StaticRules.{all_true, all_use_earlier, breaks_order, function_uses_earlier, functions_of, stmt_uses_earlier, uses_earlier};
ghost use Rattle.vh_tree_static.specs.Rules.{before_item, branch_keeps, item_uses_earlier, tests_early, usable_before};
ghost use Rattle.rw_base_tables.specs.Tables.{known_in};

use crate::table::has;
use rw_base::OutOfMemory;
use rw_base_tables::Table;
use std::alloc::Global;
use vh_tree::{Branch, Design, Function, Item, Test, VExpr, VStmt};

// Whether an expression uses no function of these items.
#[cycle(expr)]
fn expr_is_early(later: &Table<()>, expr: &VExpr) -> bool
    ensures { result ≡ uses_earlier (usable_before (known_in later.now)) expr.now }
{
    match expr {
        VExpr::Name(name) => !has(later, name),
        VExpr::Slice(_, _, _) => true,
        VExpr::Literal(_) => true,
        VExpr::Call(name, arguments) => {
            !has(later, name) && all_are_early(later, arguments.as_slice())
        }
        VExpr::Join(parts) => all_are_early(later, parts.as_slice()),
    }
}

#[cycle(expr)]
fn all_are_early(later: &Table<()>, parts: &[VExpr]) -> bool
    ensures { result ≡ all_true (map (uses_earlier (usable_before (known_in later.now))) parts.now) }
{
    for part in parts {
        if !expr_is_early(later, part) {
            return false;
        }
    }
    true
}

fn test_is_early(later: &Table<()>, test: &Test) -> bool
    ensures { result ≡ tests_early (known_in later.now) test.now }
{
    match test {
        Test::Equal(left, _) => expr_is_early(later, left),
        Test::Rising => true,
        Test::Reset => true,
    }
}

fn tests_are_early(later: &Table<()>, tests: &[Test]) -> bool
    ensures { result ≡ list_all (tests_early (known_in later.now)) tests.now }
{
    for test in tests {
        if !test_is_early(later, test) {
            return false;
        }
    }
    true
}

// Whether a statement uses no function of these items.
#[cycle(statements)]
fn stmt_is_early(later: &Table<()>, stmt: &VStmt) -> bool
    ensures { result ≡ stmt_uses_earlier (usable_before (known_in later.now)) stmt.now }
{
    match stmt {
        VStmt::Assign(_, value) => expr_is_early(later, value),
        VStmt::If(branches, other) => {
            branches_are_early(later, branches.as_slice())
                && stmts_are_early(later, other.as_slice())
        }
    }
}

#[cycle(statements)]
fn stmts_are_early(later: &Table<()>, stmts: &[VStmt]) -> bool
    ensures { result ≡ list_all (stmt_uses_earlier (usable_before (known_in later.now))) stmts.now }
{
    for stmt in stmts {
        if !stmt_is_early(later, stmt) {
            return false;
        }
    }
    true
}

#[cycle(statements)]
fn branch_is_early(later: &Table<()>, branch: &Branch) -> bool
    ensures { result ≡ branch_keeps (λ x e. uses_earlier (usable_before (known_in later.now)) e) (tests_early (known_in later.now)) branch.now }
{
    tests_are_early(later, branch.tests.as_slice())
        && stmts_are_early(later, branch.body.as_slice())
}

#[cycle(statements)]
fn branches_are_early(later: &Table<()>, branches: &[Branch]) -> bool
    ensures { result ≡ list_all (branch_keeps (λ x e. uses_earlier (usable_before (known_in later.now)) e) (tests_early (known_in later.now))) branches.now }
{
    for branch in branches {
        if !branch_is_early(later, branch) {
            return false;
        }
    }
    true
}

fn function_is_early(later: &Table<()>, function: &Function) -> bool
    ensures { result ≡ function_uses_earlier (usable_before (known_in later.now)) function.now }
{
    stmts_are_early(later, function.body.as_slice()) && expr_is_early(later, &function.result)
}

// Whether an item, if it is a function, uses none of those behind it, nor itself; it is then one of them.
fn item_is_early(alloc: Global, later: &mut Table<()>, item: &Item) -> Result<bool, OutOfMemory>
    ensures early { IfOk result (λ b. b ≡ item_uses_earlier (known_in later.new) item.now) }
    ensures later { OnOk result ((x : Bytes) → known_in later.new x ≡ before_item item.now (known_in later.old) x) }
{
    match item {
        Item::Signal(_) => Ok(true),
        Item::Function(function) => {
            later.put(alloc, function.name.as_slice(), ())?;
            Ok(function_is_early(later, function))
        }
    }
}

// Whether each function of these items uses none of those from it on.
fn items_are_early(alloc: Global, items: &[Item]) -> Result<bool, OutOfMemory>
    ensures { IfOk result (λ b. b ≡ all_use_earlier (functions_of items.now)) }
{
    let mut later = Table::new(alloc);
    let mut at = items.len();
    while at > 0 {
        at -= 1;
        if !item_is_early(alloc, &mut later, &items[at])? {
            return Ok(false);
        }
    }
    Ok(true)
}

// Whether the design keeps V7.
pub fn order_keeps(alloc: Global, design: &Design) -> Result<bool, OutOfMemory>
    ensures { IfOk result (λ b. not b ≡ breaks_order design.now) }
{
    items_are_early(alloc, design.items.as_slice())
}
