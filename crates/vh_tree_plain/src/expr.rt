// The values of expressions and of functions. Each call goes one level deeper, down to a level that is given.
ghost use Rattle.std.specs.Prelude.{◌≡◌, List, [], ◌∷◌, ◌++◌, OnOk, IfOk, map};
ghost use Rattle.std.specs.List.{list_all};
ghost use Rattle.vh_tree.specs.Functions.{Store, expr_of, scope_in, calls_of, function_value, function_world, test_holds, stmt_of, stmts_of};

use crate::PlainFail;
use crate::bits::{append, equal, same, slice};
use crate::function::{assign, enter, find};
use rw_base::Bit9;
use sqlite_items::Items;
use std::alloc::Global;
use vh_tree::{Branch, Function, Held, Ident, Item, Test, VExpr, VStmt};

/// Appends the value of an expression over these values and the functions of these items. `levels` bounds how deep
/// it goes: `TooDeep` tells nothing.
#[cycle(plain)]
pub fn append_value(
    alloc: Global,
    out: &mut Vec<Bit9>,
    e: &VExpr,
    store: &[Held],
    items: &[Item],
    levels: u32,
) -> Result<(), PlainFail>
    ensures { OnOk result (out.new.items ≡ out.old.items ++ expr_of e.now (scope_in (calls_of items.now) store.now)) }
{
    if levels == 0 {
        return Err(PlainFail::TooDeep);
    }
    match e {
        VExpr::Name(name) => append_name(alloc, out, name, store, items, levels - 1),
        VExpr::Slice(name, high, low) => {
            let mut whole = Vec::new(alloc);
            append_name(alloc, &mut whole, name, store, items, levels - 1)?;
            append(out, slice(&whole, *high, *low))
        }
        VExpr::Literal(bits) => append(out, bits.as_slice()),
        VExpr::Call(name, args) => {
            let values = values(alloc, args.as_slice(), store, items, levels - 1)?;
            append_call(alloc, out, name, &values, items, levels - 1)
        }
        VExpr::Join(parts) => {
            for part in parts.as_slice() {
                append_value(alloc, out, part, store, items, levels - 1)?;
            }
            Ok(())
        }
    }
}

#[cycle(plain)]
fn append_name(
    alloc: Global,
    out: &mut Vec<Bit9>,
    name: &Ident,
    store: &[Held],
    items: &[Item],
    levels: u32,
) -> Result<(), PlainFail>
    ensures { OnOk result (out.new.items ≡ out.old.items ++ (scope_in (calls_of items.now) store.now).value name.now) }
{
    if levels == 0 {
        return Err(PlainFail::TooDeep);
    }
    match find(store, name) {
        Some(bits) => append(out, bits),
        None => append_call(alloc, out, name, &[], items, levels - 1),
    }
}

#[cycle(plain)]
fn values(
    alloc: Global,
    args: &[VExpr],
    store: &[Held],
    items: &[Item],
    levels: u32,
) -> Result<Vec<Items<Bit9>>, PlainFail>
    ensures { IfOk result (λ values. values.items ≡ map (λ a. expr_of a (scope_in (calls_of items.now) store.now)) args.now) }
{
    let mut values = Vec::new(alloc);
    if levels == 0 {
        return Err(PlainFail::TooDeep);
    }
    for arg in args {
        let mut value = Vec::new(alloc);
        append_value(alloc, &mut value, arg, store, items, levels - 1)?;
        values.push(Items::from_vec(value))?;
    }
    Ok(values)
}

/// Appends the value of the function of this name among those of the items, of these arguments.
#[cycle(plain)]
pub fn append_call(
    alloc: Global,
    out: &mut Vec<Bit9>,
    name: &Ident,
    args: &[Items<Bit9>],
    items: &[Item],
    levels: u32,
) -> Result<(), PlainFail>
    ensures { OnOk result (out.new.items ≡ out.old.items ++ calls_of items.now name.now args.now) }
{
    if levels == 0 {
        return Err(PlainFail::TooDeep);
    }
    match items {
        [] => Ok(()),
        [earlier @ .., last] => append_last(alloc, out, name, args, earlier, last, levels - 1),
    }
}

#[cycle(plain)]
fn append_last(
    alloc: Global,
    out: &mut Vec<Bit9>,
    name: &Ident,
    args: &[Items<Bit9>],
    earlier: &[Item],
    last: &Item,
    levels: u32,
) -> Result<(), PlainFail>
    ensures { OnOk result (out.new.items ≡ out.old.items ++ calls_of (earlier.now ++ last.now ∷ []) name.now args.now) }
{
    if levels == 0 {
        return Err(PlainFail::TooDeep);
    }
    match last {
        Item::Signal(_) => append_call(alloc, out, name, args, earlier, levels - 1),
        Item::Function(f) => {
            if same(&f.name, name) {
                append_function(alloc, out, f, args, earlier, levels - 1)
            } else {
                append_call(alloc, out, name, args, earlier, levels - 1)
            }
        }
    }
}

/// Appends the value of a function over those of these items, of these arguments.
#[cycle(plain)]
pub fn append_function(
    alloc: Global,
    out: &mut Vec<Bit9>,
    f: &Function,
    args: &[Items<Bit9>],
    items: &[Item],
    levels: u32,
) -> Result<(), PlainFail>
    ensures { OnOk result (out.new.items ≡ out.old.items ++ function_value (calls_of items.now) f.now args.now) }
{
    if levels == 0 {
        return Err(PlainFail::TooDeep);
    }
    let mut store = enter(alloc, f, args)?;
    run_all(alloc, f.body.as_slice(), &mut store, items, levels - 1)?;
    append_value(alloc, out, &f.result, &store, items, levels - 1)
}

#[cycle(plain)]
fn holds(
    alloc: Global,
    test: &Test,
    store: &[Held],
    items: &[Item],
    levels: u32,
) -> Result<bool, PlainFail>
    ensures { IfOk result (λ b. b ≡ test_holds Store test.now (function_world (calls_of items.now)) store.now) }
{
    if levels == 0 {
        return Err(PlainFail::TooDeep);
    }
    match test {
        Test::Equal(e, bits) => {
            let mut value = Vec::new(alloc);
            append_value(alloc, &mut value, e, store, items, levels - 1)?;
            Ok(equal(&value, bits.as_slice()))
        }
        Test::Rising => Ok(false),
        Test::Reset => Ok(false),
    }
}

#[cycle(plain)]
fn all_hold(
    alloc: Global,
    tests: &[Test],
    store: &[Held],
    items: &[Item],
    levels: u32,
) -> Result<bool, PlainFail>
    ensures { IfOk result (λ b. b ≡ list_all (λ t. test_holds Store t (function_world (calls_of items.now)) store.now) tests.now) }
{
    if levels == 0 {
        return Err(PlainFail::TooDeep);
    }
    for test in tests {
        if !holds(alloc, test, store, items, levels - 1)? {
            return Ok(false);
        }
    }
    Ok(true)
}

#[cycle(plain)]
fn run_all(
    alloc: Global,
    body: &[VStmt],
    store: &mut Vec<Held>,
    items: &[Item],
    levels: u32,
) -> Result<(), PlainFail>
    ensures { OnOk result (store.new.items ≡ stmts_of Store body.now (function_world (calls_of items.now)) store.old.items) }
{
    if levels == 0 {
        return Err(PlainFail::TooDeep);
    }
    for stmt in body {
        run(alloc, stmt, store, items, levels - 1)?;
    }
    Ok(())
}

#[cycle(plain)]
fn run(
    alloc: Global,
    stmt: &VStmt,
    store: &mut Vec<Held>,
    items: &[Item],
    levels: u32,
) -> Result<(), PlainFail>
    ensures { OnOk result (store.new.items ≡ stmt_of Store stmt.now (function_world (calls_of items.now)) store.old.items) }
{
    if levels == 0 {
        return Err(PlainFail::TooDeep);
    }
    match stmt {
        VStmt::Assign(name, e) => {
            let mut value = Vec::new(alloc);
            append_value(alloc, &mut value, e, store, items, levels - 1)?;
            assign(store, name, Items::from_vec(value));
            Ok(())
        }
        VStmt::If(branches, other) => {
            for branch in branches.as_slice() {
                if all_hold(alloc, branch.tests.as_slice(), store, items, levels - 1)? {
                    return run_all(alloc, branch.body.as_slice(), store, items, levels - 1);
                }
            }
            run_all(alloc, other.as_slice(), store, items, levels - 1)
        }
    }
}
