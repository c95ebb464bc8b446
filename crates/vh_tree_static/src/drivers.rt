// V6: `outp` and each signal is assigned in exactly one process.
//
// One walk through all statements notes of each name that is assigned to whether one process does it, and which.
ghost use Rattle.std.specs.Prelude.{◌≡◌, true, Some, IfOk, MatchOption, OnOk, not};
ghost use Rattle.std.specs.List.{list_all, list_any};
ghost use Rattle.vh_tree.specs.Bits.{Bytes, same_name};
ghost use Rattle.vh_tree.specs.StaticRules.{assigns as assigns_to, breaks_drivers, signal_names};
ghost use Rattle.vh_tree_static.specs.Drivers.{Assigns, and_process, driver_in, is_one};
ghost use Rattle.vh_tree_static.specs.Rules.{branch_assigns as branch_assigns_to};
ghost use Rattle.rw_base_tables.specs.Tables.{known_in};

use crate::table::get;
use rw_base::OutOfMemory;
use rw_base_tables::Table;
use std::alloc::Global;
use vh_tree::{Branch, Design, Ident, Item, Process, VStmt};

// Which of the processes assign to a name, where any does.
#[derive(Clone, Copy)]
pub enum Driver {
    // The one at this place.
    One(usize),
    // Two or more.
    Several,
}

// What is to be noted of a name that the process at this place assigns to, if that is not yet known.
fn news(known: Option<Driver>, place: usize) -> Option<Driver>
    ensures { MatchOption result (and_process place true known ≡ known) (λ d. and_process place true known ≡ Some d) }
{
    match known {
        None => Some(Driver::One(place)),
        Some(Driver::One(other)) => {
            if other == place {
                None
            } else {
                Some(Driver::Several)
            }
        }
        Some(Driver::Several) => None,
    }
}

// Notes that the process at this place assigns to this name.
fn note(
    alloc: Global,
    drivers: &mut Table<Driver>,
    place: usize,
    target: &Ident,
) -> Result<(), OutOfMemory>
    ensures { OnOk result (Assigns place (λ x. same_name x target.now) (known_in drivers.old) (known_in drivers.new)) }
{
    if let Some(driver) = news(get(drivers, target).copied(), place) {
        drivers.put(alloc, target.as_slice(), driver)?;
    }
    Ok(())
}

// Notes what a statement of the process at this place assigns to.
#[cycle(statements)]
fn note_stmt(
    alloc: Global,
    drivers: &mut Table<Driver>,
    place: usize,
    stmt: &VStmt,
) -> Result<(), OutOfMemory>
    ensures { OnOk result (Assigns place (λ x. assigns_to x stmt.now) (known_in drivers.old) (known_in drivers.new)) }
{
    match stmt {
        VStmt::Assign(target, _) => note(alloc, drivers, place, target),
        VStmt::If(branches, other) => {
            note_branches(alloc, drivers, place, branches.as_slice())?;
            note_stmts(alloc, drivers, place, other.as_slice())
        }
    }
}

#[cycle(statements)]
fn note_stmts(
    alloc: Global,
    drivers: &mut Table<Driver>,
    place: usize,
    stmts: &[VStmt],
) -> Result<(), OutOfMemory>
    ensures { OnOk result (Assigns place (λ x. list_any (assigns_to x) stmts.now) (known_in drivers.old) (known_in drivers.new)) }
{
    for stmt in stmts {
        note_stmt(alloc, drivers, place, stmt)?;
    }
    Ok(())
}

#[cycle(statements)]
fn note_branch(
    alloc: Global,
    drivers: &mut Table<Driver>,
    place: usize,
    branch: &Branch,
) -> Result<(), OutOfMemory>
    ensures { OnOk result (Assigns place (λ x. branch_assigns_to x branch.now) (known_in drivers.old) (known_in drivers.new)) }
{
    note_stmts(alloc, drivers, place, branch.body.as_slice())
}

#[cycle(statements)]
fn note_branches(
    alloc: Global,
    drivers: &mut Table<Driver>,
    place: usize,
    branches: &[Branch],
) -> Result<(), OutOfMemory>
    ensures { OnOk result (Assigns place (λ x. list_any (branch_assigns_to x) branches.now) (known_in drivers.old) (known_in drivers.new)) }
{
    for branch in branches {
        note_branch(alloc, drivers, place, branch)?;
    }
    Ok(())
}

// Which of these processes assign to each name.
fn drivers_of(alloc: Global, processes: &[Process]) -> Result<Table<Driver>, OutOfMemory>
    ensures { IfOk result (λ t. (x : Bytes) → known_in t x ≡ driver_in processes.now x) }
{
    let mut drivers = Table::new(alloc);
    for (place, process) in processes.iter().enumerate() {
        note_stmts(alloc, &mut drivers, place, process.body.as_slice())?;
    }
    Ok(drivers)
}

// Whether one process assigns to this name.
fn has_one_driver(drivers: &Table<Driver>, name: &Ident) -> bool
    ensures { result ≡ is_one (known_in drivers.now name.now) }
{
    matches!(get(drivers, name).copied(), Some(Driver::One(_)))
}

// Whether one process assigns to each signal of these items.
fn signals_are_driven(drivers: &Table<Driver>, items: &[Item]) -> bool
    ensures { result ≡ list_all (λ x. is_one (known_in drivers.now x)) (signal_names items.now) }
{
    for item in items {
        if let Item::Signal(signal) = item {
            if !has_one_driver(drivers, &signal.name) {
                return false;
            }
        }
    }
    true
}

// Whether the design keeps V6.
pub fn drivers_keep(alloc: Global, design: &Design) -> Result<bool, OutOfMemory>
    ensures { IfOk result (λ b. not b ≡ breaks_drivers design.now) }
{
    let drivers = drivers_of(alloc, design.processes.as_slice())?;
    let outp = Ident::from_slice(alloc, b"outp")?;
    Ok(has_one_driver(&drivers, &outp) && signals_are_driven(&drivers, design.items.as_slice()))
}
