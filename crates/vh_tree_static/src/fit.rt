// V5, over statements, functions and the whole design.
ghost use Rattle.std.specs.Prelude.{◌≡◌, ◌&&◌, ◌∷◌, ◌++◌, IfOk, OnOk, IsTrue, not, map, take, length, codes};
ghost use Rattle.std.specs.List.{list_all};
ghost use Rattle.vh_tree.specs.Functions.{parameter_widths};
ghost use Rattle.vh_tree.specs.StaticRules.{agree as agree_with, breaks_widths, declared_signals, function_fits, is_width as is_declared, items_fit, measured, parameter_vars, process_vars, shape_of, shapes_of, stmt_fits, fits_in, names_of, widths_in_process};
ghost use Rattle.vh_tree_static.specs.Rules.{branch_keeps};
ghost use Rattle.vh_tree_static.specs.Measures.{CalleeOf, CalleeOver, CalleesOf, ItemsFit, assigns_fit, body_keeps, function_vars, known_by, tests_fit, widths_over};
ghost use Rattle.rw_base_tables.specs.Tables.{known_in};

use crate::lookup::width_table;
use crate::table::get;
use crate::vars::{add_signals, again, port};
use crate::widths::{Callee, agree, measure};
use rw_base::OutOfMemory;
use rw_base_tables::Table;
use sqlite_items::Items;
use std::alloc::Global;
use vh_tree::{Branch, Design, Function, Ident, Item, Process, Test, VExpr, VStmt, Var};

const MAX_WIDTH: u32 = 1 << 30;

// Whether a width may be declared.
fn is_width(width: u32) -> bool
    ensures { result ≡ is_declared width }
{
    1 <= width && width <= MAX_WIDTH
}

fn vars_fit(vars: &[Var]) -> bool
    ensures { result ≡ list_all (λ v. is_declared v.width) vars.now }
{
    for var in vars {
        if !is_width(var.width) {
            return false;
        }
    }
    true
}

// Whether widths in an expression agree, and its width with this one.
fn expr_fits(vars: &Table<u32>, callees: &Table<Callee>, whole: Option<u64>, expr: &VExpr) -> bool
    ensures { result ≡ fits_in (widths_over (known_in vars.now) callees.now) whole expr.now }
{
    match measure(vars, callees, expr) {
        Ok(width) => agree(whole, width),
        Err(_) => false,
    }
}

fn assignment_fits(
    vars: &Table<u32>,
    callees: &Table<Callee>,
    target: &Ident,
    value: &VExpr,
) -> bool
    ensures { result ≡ assigns_fit (known_in vars.now) callees.now target.now value.now }
{
    match get(vars, target) {
        Some(width) => expr_fits(vars, callees, Some(*width as u64), value),
        None => expr_fits(vars, callees, None, value),
    }
}

fn test_fits(vars: &Table<u32>, callees: &Table<Callee>, test: &Test) -> bool
    ensures { result ≡ tests_fit (known_in vars.now) callees.now test.now }
{
    match test {
        Test::Equal(left, bits) => {
            expr_fits(vars, callees, Some(bits.as_slice().len() as u64), left)
        }
        Test::Rising => true,
        Test::Reset => true,
    }
}

fn all_tests_fit(vars: &Table<u32>, callees: &Table<Callee>, tests: &[Test]) -> bool
    ensures { result ≡ list_all (tests_fit (known_in vars.now) callees.now) tests.now }
{
    for test in tests {
        if !test_fits(vars, callees, test) {
            return false;
        }
    }
    true
}

// Whether the widths in a statement agree.
#[cycle(statements)]
fn one_fits(vars: &Table<u32>, callees: &Table<Callee>, stmt: &VStmt) -> bool
    ensures { result ≡ stmt_fits (widths_over (known_in vars.now) callees.now) stmt.now }
{
    match stmt {
        VStmt::Assign(target, value) => assignment_fits(vars, callees, target, value),
        VStmt::If(branches, other) => {
            branches_fit(vars, callees, branches.as_slice())
                && stmts_fit(vars, callees, other.as_slice())
        }
    }
}

#[cycle(statements)]
fn stmts_fit(vars: &Table<u32>, callees: &Table<Callee>, stmts: &[VStmt]) -> bool
    ensures { result ≡ list_all (stmt_fits (widths_over (known_in vars.now) callees.now)) stmts.now }
{
    for stmt in stmts {
        if !one_fits(vars, callees, stmt) {
            return false;
        }
    }
    true
}

#[cycle(statements)]
fn branch_fits(vars: &Table<u32>, callees: &Table<Callee>, branch: &Branch) -> bool
    ensures { result ≡ branch_keeps (assigns_fit (known_in vars.now) callees.now) (tests_fit (known_in vars.now) callees.now) branch.now }
{
    all_tests_fit(vars, callees, branch.tests.as_slice())
        && stmts_fit(vars, callees, branch.body.as_slice())
}

#[cycle(statements)]
fn branches_fit(vars: &Table<u32>, callees: &Table<Callee>, branches: &[Branch]) -> bool
    ensures { result ≡ list_all (branch_keeps (assigns_fit (known_in vars.now) callees.now) (tests_fit (known_in vars.now) callees.now)) branches.now }
{
    for branch in branches {
        if !branch_fits(vars, callees, branch) {
            return false;
        }
    }
    true
}

// Appends parameters with the widths of the variables that they are put into.
fn add_params(
    alloc: Global,
    all: &mut Vec<Var>,
    params: &[Ident],
    vars: &[Var],
) -> Result<(), OutOfMemory>
    ensures { OnOk result (all.new.items ≡ all.old.items ++ parameter_vars params.now vars.now) }
{
    let mut rest = vars;
    for param in params {
        match rest {
            [] => return Ok(()),
            [var, more @ ..] => {
                all.push(port(alloc, param.as_slice(), var.width)?)?;
                rest = more;
            }
        }
    }
    Ok(())
}

// Appends these variables.
fn add_vars(alloc: Global, all: &mut Vec<Var>, vars: &[Var]) -> Result<(), OutOfMemory>
    ensures { OnOk result (all.new.items ≡ all.old.items ++ vars.now) }
{
    for var in vars {
        all.push(again(alloc, var)?)?;
    }
    Ok(())
}

fn vars_in(alloc: Global, function: &Function) -> Result<Vec<Var>, OutOfMemory>
    ensures { IfOk result (λ vars. vars.items ≡ function_vars function.now) }
{
    let mut all = Vec::new(alloc);
    let vars = function.vars.as_slice();
    add_params(alloc, &mut all, function.params.as_slice(), vars)?;
    add_vars(alloc, &mut all, vars)?;
    Ok(all)
}

// The widths of these variables.
fn widths_of(alloc: Global, vars: &[Var]) -> Result<Items<u32>, OutOfMemory>
    ensures { IfOk result (λ widths. widths ≡ map (λ v. v.width) vars.now) }
{
    let mut widths = Items::new(alloc);
    for var in vars {
        widths.push(var.width)?;
    }
    Ok(widths)
}

// The widths of a function's parameters.
fn param_widths(alloc: Global, function: &Function) -> Result<Items<u32>, OutOfMemory>
    ensures { IfOk result (λ widths. widths ≡ parameter_widths function.now) }
{
    let vars = function.vars.as_slice();
    let count = function.params.as_slice().len().min(vars.len());
    widths_of(alloc, &vars[..count])
}

// Whether the widths of a function's variables may be declared, and those in its statements agree.
fn body_fits(vars: &Table<u32>, callees: &Table<Callee>, function: &Function) -> bool
    ensures { result ≡ body_keeps (known_in vars.now) callees.now function.now }
{
    vars_fit(function.vars.as_slice()) && stmts_fit(vars, callees, function.body.as_slice())
}

// What a function over these variables is to those behind it, if its widths agree.
fn callee_over(
    alloc: Global,
    vars: &Table<u32>,
    callees: &Table<Callee>,
    function: &Function,
) -> Result<Option<Callee>, OutOfMemory>
    ensures { IfOk result (CalleeOver (known_in vars.now) callees.now function.now) }
{
    if !body_fits(vars, callees, function) {
        return Ok(None);
    }
    match measure(vars, callees, &function.result) {
        Err(_) => Ok(None),
        Ok(result) => {
            let params = param_widths(alloc, function)?;
            Ok(Some(Callee { params, result }))
        }
    }
}

// What a function is to those behind it, if its widths agree.
fn callee(
    alloc: Global,
    callees: &Table<Callee>,
    function: &Function,
) -> Result<Option<Callee>, OutOfMemory>
    ensures { IfOk result (CalleeOf callees.now function.now) }
{
    let vars = width_table(alloc, &vars_in(alloc, function)?)?;
    callee_over(alloc, &vars, callees, function)
}

// Whether widths agree in these items, with what their functions are to the processes.
fn all_items_fit(
    alloc: Global,
    callees: &mut Table<Callee>,
    items: &[Item],
) -> Result<bool, OutOfMemory>
    ensures { IfOk result (λ b. ItemsFit b (known_by callees.old) (known_by callees.new) items.now) }
{
    for item in items {
        match item {
            Item::Signal(signal) => {
                if !is_width(signal.width) {
                    return Ok(false);
                }
            }
            Item::Function(function) => match callee(alloc, callees, function)? {
                None => return Ok(false),
                Some(callee) => callees.put(alloc, function.name.as_slice(), callee)?,
            },
        }
    }
    Ok(true)
}

// The ports and the signals.
fn ports_and_signals(alloc: Global, design: &Design) -> Result<Vec<Var>, OutOfMemory>
    ensures { IfOk result (λ vars. vars.items ≡ process_vars design.now) }
{
    let mut vars = vec![in alloc;
        port(alloc, b"clk", 1)?,
        port(alloc, b"rst", 1)?,
        port(alloc, b"inp", design.inp)?,
        port(alloc, b"outp", design.outp)?,
    ]?;
    add_signals(alloc, &mut vars, design.items.as_slice())?;
    Ok(vars)
}

fn processes_fit(vars: &Table<u32>, callees: &Table<Callee>, processes: &[Process]) -> bool
    ensures { result ≡ list_all (λ p. list_all (stmt_fits (widths_over (known_in vars.now) callees.now)) p.body) processes.now }
{
    for process in processes {
        if !stmts_fit(vars, callees, process.body.as_slice()) {
            return false;
        }
    }
    true
}

// What the functions of these items are to the processes, if widths agree in the items.
fn callees_of(alloc: Global, items: &[Item]) -> Result<Option<Table<Callee>>, OutOfMemory>
    ensures { IfOk result (λ o. CalleesOf o items.now) }
{
    let mut callees = Table::new(alloc);
    if !all_items_fit(alloc, &mut callees, items)? {
        return Ok(None);
    }
    Ok(Some(callees))
}

// Whether widths agree in the processes, given what the functions are to them.
fn processes_keep(
    alloc: Global,
    design: &Design,
    callees: &Table<Callee>,
) -> Result<bool, OutOfMemory>
    requires { known_by callees.now ≡ shapes_of design.now.items }
    ensures { IfOk result (λ b. b ≡ list_all (λ p. list_all (stmt_fits (widths_in_process design.now)) p.body) design.now.processes) }
{
    let vars = width_table(alloc, &ports_and_signals(alloc, design)?)?;
    Ok(processes_fit(&vars, callees, design.processes.as_slice()))
}

// Whether the design keeps V5.
pub fn widths_keep(alloc: Global, design: &Design) -> Result<bool, OutOfMemory>
    ensures { IfOk result (λ b. not b ≡ breaks_widths design.now) }
{
    if !is_width(design.inp) || !is_width(design.outp) {
        return Ok(false);
    }
    match callees_of(alloc, design.items.as_slice())? {
        None => Ok(false),
        Some(callees) => processes_keep(alloc, design, &callees),
    }
}
