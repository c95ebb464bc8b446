// V4: what names are declared, and what statements and expressions name.
ghost use Rattle.std.specs.Prelude.{◌≡◌, ◌++◌, Some, IfOk, drop, is_some, length, map, not};
ghost use Rattle.std.specs.List.{list_all};
ghost use Rattle.vh_tree.specs.StaticRules.{all_true, arity_in, breaks_names, declared_signals, functions_of, has_arity, item_names, names_well, process_names_well, width_among};
ghost use Rattle.vh_tree.specs.StaticRules as rules;
ghost use Rattle.vh_tree_static.specs.Rules.{assigns_well, branch_keeps, names_over, tests_well};
ghost use Rattle.vh_tree_static.specs.Named.{IsSet, IsWires, are_apart, body_well, function_well, own_names, process_well, stmt_well};
ghost use Rattle.rw_base_tables.specs.Tables.{known_in};

use crate::distinct::{add_items, add_names, add_vars, as_set, distinct};
use crate::lookup::{arity_table, same, width_table};
use crate::table::{get, has};
use crate::vars::{add_signals, port};
use rw_base::OutOfMemory;
use rw_base_tables::Table;
use std::alloc::Global;
use vh_tree::{Branch, Design, Function, Ident, Item, Process, Test, VExpr, VStmt, Var};

// Whether a function of this name has so many parameters.
fn takes(arities: &Table<usize>, name: &Ident, count: usize) -> bool
    ensures { result ≡ has_arity (known_in arities.now name.now) count }
{
    match get(arities, name) {
        Some(most) => *most == count,
        None => false,
    }
}

// Whether an expression names these variables, and functions of these numbers of parameters, as it may.
#[cycle(expr)]
fn expr_is_named(arities: &Table<usize>, vars: &Table<u32>, expr: &VExpr) -> bool
    ensures { result ≡ names_well (names_over (known_in arities.now) (known_in vars.now)) expr.now }
{
    match expr {
        VExpr::Name(name) => has(vars, name) || takes(arities, name, 0),
        VExpr::Slice(name, _, _) => has(vars, name),
        VExpr::Literal(_) => true,
        VExpr::Call(name, arguments) => {
            let arguments = arguments.as_slice();
            takes(arities, name, arguments.len()) && all_are_named(arities, vars, arguments)
        }
        VExpr::Join(parts) => all_are_named(arities, vars, parts.as_slice()),
    }
}

#[cycle(expr)]
fn all_are_named(arities: &Table<usize>, vars: &Table<u32>, parts: &[VExpr]) -> bool
    ensures { result ≡ all_true (map (names_well (names_over (known_in arities.now) (known_in vars.now))) parts.now) }
{
    for part in parts {
        if !expr_is_named(arities, vars, part) {
            return false;
        }
    }
    true
}

fn test_is_named(arities: &Table<usize>, vars: &Table<u32>, in_process: bool, test: &Test) -> bool
    ensures { result ≡ tests_well (known_in arities.now) (known_in vars.now) in_process test.now }
{
    match test {
        Test::Equal(left, _) => expr_is_named(arities, vars, left),
        Test::Rising => in_process,
        Test::Reset => in_process,
    }
}

fn tests_are_named(
    arities: &Table<usize>,
    vars: &Table<u32>,
    in_process: bool,
    tests: &[Test],
) -> bool
    ensures { result ≡ list_all (tests_well (known_in arities.now) (known_in vars.now) in_process) tests.now }
{
    for test in tests {
        if !test_is_named(arities, vars, in_process, test) {
            return false;
        }
    }
    true
}

// Whether a statement assigns to one of these, and names what it may.
#[cycle(statements)]
fn stmt_is_named(
    arities: &Table<usize>,
    vars: &Table<u32>,
    assigned: &Table<u32>,
    in_process: bool,
    stmt: &VStmt,
) -> bool
    ensures { result ≡ stmt_well (known_in arities.now) (known_in vars.now) (known_in assigned.now) in_process stmt.now }
{
    match stmt {
        VStmt::Assign(target, value) => {
            has(assigned, target) && expr_is_named(arities, vars, value)
        }
        VStmt::If(branches, other) => {
            branches_are_named(arities, vars, assigned, in_process, branches.as_slice())
                && stmts_are_named(arities, vars, assigned, in_process, other.as_slice())
        }
    }
}

#[cycle(statements)]
fn stmts_are_named(
    arities: &Table<usize>,
    vars: &Table<u32>,
    assigned: &Table<u32>,
    in_process: bool,
    stmts: &[VStmt],
) -> bool
    ensures { result ≡ list_all (stmt_well (known_in arities.now) (known_in vars.now) (known_in assigned.now) in_process) stmts.now }
{
    for stmt in stmts {
        if !stmt_is_named(arities, vars, assigned, in_process, stmt) {
            return false;
        }
    }
    true
}

#[cycle(statements)]
fn branch_is_named(
    arities: &Table<usize>,
    vars: &Table<u32>,
    assigned: &Table<u32>,
    in_process: bool,
    branch: &Branch,
) -> bool
    ensures { result ≡ branch_keeps (assigns_well (known_in arities.now) (known_in vars.now) (known_in assigned.now)) (tests_well (known_in arities.now) (known_in vars.now) in_process) branch.now }
{
    tests_are_named(arities, vars, in_process, branch.tests.as_slice())
        && stmts_are_named(arities, vars, assigned, in_process, branch.body.as_slice())
}

#[cycle(statements)]
fn branches_are_named(
    arities: &Table<usize>,
    vars: &Table<u32>,
    assigned: &Table<u32>,
    in_process: bool,
    branches: &[Branch],
) -> bool
    ensures { result ≡ list_all (branch_keeps (assigns_well (known_in arities.now) (known_in vars.now) (known_in assigned.now)) (tests_well (known_in arities.now) (known_in vars.now) in_process)) branches.now }
{
    for branch in branches {
        if !branch_is_named(arities, vars, assigned, in_process, branch) {
            return false;
        }
    }
    true
}

fn is_bare(name: &Ident, expr: &VExpr) -> bool
    ensures { result ≡ rules.is_name name.now expr.now }
{
    match expr {
        VExpr::Name(other) => same(name, other),
        VExpr::Slice(_, _, _) => false,
        VExpr::Literal(_) => false,
        VExpr::Call(_, _) => false,
        VExpr::Join(_) => false,
    }
}

fn is_copy(var: &Ident, param: &Ident, stmt: &VStmt) -> bool
    ensures { result ≡ rules.copies var.now param.now stmt.now }
{
    match stmt {
        VStmt::Assign(target, value) => same(var, target) && is_bare(param, value),
        VStmt::If(_, _) => false,
    }
}

// Whether the first statements put the parameters, in order, into the first variables.
fn begins_with_copies(params: &[Ident], vars: &[Var], body: &[VStmt]) -> bool
    ensures { result ≡ rules.begins_with_copies params.now vars.now body.now }
{
    let mut vars = vars;
    let mut body = body;
    for param in params {
        let [var, more_vars @ ..] = vars else {
            return false;
        };
        let [stmt, more_body @ ..] = body else {
            return false;
        };
        if !is_copy(&var.name, param, stmt) {
            return false;
        }
        vars = more_vars;
        body = more_body;
    }
    true
}

// The statements behind those that copy the parameters.
fn behind_copies(function: &Function) -> &[VStmt]
    ensures { result.now ≡ drop (length function.now.params) function.now.body }
{
    let body = function.body.as_slice();
    &body[function.params.as_slice().len().min(body.len())..]
}

// Over the function's variables, and functions of these numbers of parameters.
fn body_is_named(arities: &Table<usize>, vars: &Table<u32>, function: &Function) -> bool
    ensures { result ≡ body_well (known_in arities.now) (known_in vars.now) function.now }
{
    begins_with_copies(
        function.params.as_slice(),
        function.vars.as_slice(),
        function.body.as_slice(),
    ) && stmts_are_named(arities, vars, vars, false, behind_copies(function))
        && expr_is_named(arities, vars, &function.result)
}

// Whether none of these names is declared.
fn none_is_declared(declared: &Table<()>, names: &[Ident]) -> bool
    ensures { result ≡ list_all (λ x. not (is_some (known_in declared.now x))) names.now }
{
    for name in names {
        if has(declared, name) {
            return false;
        }
    }
    true
}

// Whether the names that a function declares differ from each other, and from what is declared.
fn function_is_distinct(
    alloc: Global,
    declared: &Table<()>,
    function: &Function,
) -> Result<bool, OutOfMemory>
    ensures { IfOk result (λ b. b ≡ are_apart (known_in declared.now) (own_names function.now)) }
{
    let mut names = Vec::new(alloc);
    add_names(alloc, &mut names, function.params.as_slice())?;
    add_vars(alloc, &mut names, function.vars.as_slice())?;
    Ok(distinct(alloc, &names)? && none_is_declared(declared, &names))
}

fn function_is_named(
    alloc: Global,
    declared: &Table<()>,
    arities: &Table<usize>,
    function: &Function,
) -> Result<bool, OutOfMemory>
    ensures { IfOk result (λ b. b ≡ function_well (known_in declared.now) (known_in arities.now) function.now) }
{
    if !function_is_distinct(alloc, declared, function)? {
        return Ok(false);
    }
    let vars = width_table(alloc, function.vars.as_slice())?;
    Ok(body_is_named(arities, &vars, function))
}

fn functions_are_named(
    alloc: Global,
    declared: &Table<()>,
    arities: &Table<usize>,
    items: &[Item],
) -> Result<bool, OutOfMemory>
    ensures { IfOk result (λ b. b ≡ list_all (function_well (known_in declared.now) (known_in arities.now)) (functions_of items.now)) }
{
    for item in items {
        if let Item::Function(function) = item {
            if !function_is_named(alloc, declared, arities, function)? {
                return Ok(false);
            }
        }
    }
    Ok(true)
}

// What processes hear, read and drive: the ports and the signals.
#[derive(Drop)]
pub struct Wires {
    pub heard: Table<u32>,
    pub read: Table<u32>,
    pub driven: Table<u32>,
}

// The widths of these ports and of the signals of these items.
fn with_signals(alloc: Global, ports: Vec<Var>, items: &[Item]) -> Result<Table<u32>, OutOfMemory>
    ensures { IfOk result (λ t. known_in t ≡ width_among (ports.items ++ declared_signals items.now)) }
{
    let mut vars = ports;
    add_signals(alloc, &mut vars, items)?;
    width_table(alloc, &vars)
}

fn wires_of(alloc: Global, design: &Design) -> Result<Wires, OutOfMemory>
    ensures { IfOk result (λ w. IsWires w design.now) }
{
    let items = design.items.as_slice();
    let heard = vec![in alloc;
        port(alloc, b"clk", 1)?,
        port(alloc, b"rst", 1)?,
        port(alloc, b"inp", design.inp)?,
    ]?;
    let read = vec![in alloc; port(alloc, b"inp", design.inp)?]?;
    let driven = vec![in alloc; port(alloc, b"outp", design.outp)?]?;
    Ok(Wires {
        heard: with_signals(alloc, heard, items)?,
        read: with_signals(alloc, read, items)?,
        driven: with_signals(alloc, driven, items)?,
    })
}

fn all_heard(heard: &Table<u32>, names: &[Ident]) -> bool
    ensures { result ≡ list_all (λ x. is_some (known_in heard.now x)) names.now }
{
    for name in names {
        if !has(heard, name) {
            return false;
        }
    }
    true
}

fn process_is_named(
    alloc: Global,
    arities: &Table<usize>,
    wires: &Wires,
    process: &Process,
) -> Result<bool, OutOfMemory>
    ensures { IfOk result (λ b. b ≡ process_well (known_in arities.now) wires.now process.now) }
{
    let sensitive = process.sensitive.as_slice();
    if !all_heard(&wires.heard, sensitive) || !distinct(alloc, sensitive)? {
        return Ok(false);
    }
    Ok(stmts_are_named(
        arities,
        &wires.read,
        &wires.driven,
        true,
        process.body.as_slice(),
    ))
}

fn processes_are_named(
    alloc: Global,
    arities: &Table<usize>,
    wires: &Wires,
    processes: &[Process],
) -> Result<bool, OutOfMemory>
    ensures { IfOk result (λ b. b ≡ list_all (process_well (known_in arities.now) wires.now) processes.now) }
{
    for process in processes {
        if !process_is_named(alloc, arities, wires, process)? {
            return Ok(false);
        }
    }
    Ok(true)
}

// What the items declare, if their names are distinct.
fn declared_by(alloc: Global, items: &[Item]) -> Result<Option<Table<()>>, OutOfMemory>
    ensures { IfOk result (λ o. IsSet o (item_names items.now)) }
{
    let mut names = Vec::new(alloc);
    add_items(alloc, &mut names, items)?;
    as_set(alloc, &names)
}

fn processes_keep(
    alloc: Global,
    arities: &Table<usize>,
    design: &Design,
) -> Result<bool, OutOfMemory>
    requires { known_in arities.now ≡ arity_in (functions_of design.now.items) }
    ensures { IfOk result (λ b. b ≡ list_all (process_names_well design.now.items) design.now.processes) }
{
    let wires = wires_of(alloc, design)?;
    processes_are_named(alloc, arities, &wires, design.processes.as_slice())
}

// Whether functions and processes keep V4, where this is what the items declare.
fn uses_keep(alloc: Global, declared: &Table<()>, design: &Design) -> Result<bool, OutOfMemory>
    requires { IsSet (Some declared.now) (item_names design.now.items) }
    ensures { IfOk result (λ b. not b ≡ breaks_names design.now) }
{
    let items = design.items.as_slice();
    let arities = arity_table(alloc, items)?;
    if !functions_are_named(alloc, declared, &arities, items)? {
        return Ok(false);
    }
    processes_keep(alloc, &arities, design)
}

// Whether the design keeps V4.
pub fn names_keep(alloc: Global, design: &Design) -> Result<bool, OutOfMemory>
    ensures { IfOk result (λ b. not b ≡ breaks_names design.now) }
{
    match declared_by(alloc, design.items.as_slice())? {
        None => Ok(false),
        Some(declared) => uses_keep(alloc, &declared, design),
    }
}
