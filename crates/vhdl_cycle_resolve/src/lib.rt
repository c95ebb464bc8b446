//! Places in place of names: from a design to one that runs over flat buffers.
//!
//! It leaves running to `vhdl_cycle_flat` and the static rules to `vh_tree_static`; it meets `IsResolved` of `vhdl_cycle_flat` for every design.
//! The simulator calls it once. Begin with `specs/Resolving.antt` of `vhdl_cycle_flat`, then `layout.rt`, `expr.rt`, `stmt.rt`,
//! `function.rt`, `drive.rt` and `process.rt`; `sized.rt` has the bounds of scratch, and `table.rt` the names.
#![tactic(auto)]

ghost use Rattle.std.specs.Prelude.{IfOk};
ghost use Rattle.vhdl_cycle_flat.specs.Resolving.{IsResolved};

mod choice;
mod drive;
mod expr;
mod function;
mod layout;
mod process;
mod room;
mod sized;
mod stmt;
mod table;

use crate::function::functions_of;
use crate::layout::wires_of;
use crate::process::resolve_processes;
use rw_base::OutOfMemory;
use std::alloc::Global;
use vh_tree::Design;
use vhdl_cycle_flat::Resolved;

/// The design with places in place of names: ports and signals, functions and processes do over flat buffers what the
/// design's do (IEEE Std 1076-1993, sections 2, 7, 8 and 9), and the room is enough for every run. No static rule is
/// asked for. Sums of widths, in bits, that are no numbers of 32 bits count as want of memory.
pub fn resolve(alloc: Global, design: &Design) -> Result<Resolved, OutOfMemory>
    ensures { IfOk result (λ resolved. IsResolved design.now resolved) }
{
    let wires = wires_of(alloc, design)?;
    let functions = functions_of(alloc, design.items.as_slice())?;
    let mut room = 0;
    let processes = resolve_processes(
        alloc,
        design.processes.as_slice(),
        &wires.slots,
        &functions.known,
        &mut room,
    )?;
    Ok(Resolved {
        processes,
        wires: wires.count,
        bits: wires.bits,
        store: functions.store,
        room,
    })
}
