// Processes, with places in place of names (IEEE Std 1076-1993, section 9.2).
ghost use Rattle.std.specs.Prelude.{◌≡◌, ◌≤◌, ℕ, IfOk, map};
ghost use Rattle.vh_tree.specs.Bits.{Bits};
ghost use Rattle.vhdl_cycle_flat.specs.Delta.{drive_of, room_in_order, room_ran};
ghost use Rattle.vhdl_cycle_flat.specs.Resolving.{IsProcessOf, AreProcesses, places_of};
ghost use Rattle.vhdl_cycle_resolve.specs.Over.{slots_in, frames_in};

use crate::drive::resolve_drives;
use crate::sized::Known;
use crate::table::get;
use rw_base::OutOfMemory;
use rw_base_tables::Table;
use sqlite_items::Items;
use std::alloc::Global;
use vh_tree::Ident;
use vhdl_cycle_flat::{Place, Process, Slot};

// Where the bits of these names stand; a name without a place has none.
fn resolve_places(
    alloc: Global,
    names: &[Ident],
    slots: &Table<Slot>,
) -> Result<Items<Place>, OutOfMemory>
    ensures { IfOk result (λ ps. ps ≡ places_of (slots_in slots.now) names.now) }
{
    let mut out = Items::new(alloc);
    for name in names {
        if let Some(slot) = get(slots, name) {
            out.push(Place {
                from: slot.from,
                len: slot.len,
            })?;
        }
    }
    Ok(out)
}

fn resolve_process(
    alloc: Global,
    process: &vh_tree::Process,
    slots: &Table<Slot>,
    funs: &Table<Known>,
    room: &mut u32,
) -> Result<Process, OutOfMemory>
    ensures stands { IfOk result (λ p. IsProcessOf (slots_in slots.now) (frames_in funs.now) process.now p) }
    ensures room { IfOk result (λ p. (n : ℕ) (now : Bits) → room_in_order (map drive_of p.body) n now ≤ room.new) }
    ensures raised { room.old ≤ room.new }
{
    let sensitive = resolve_places(alloc, process.sensitive.as_slice(), slots)?;
    let body = resolve_drives(alloc, process.body.as_slice(), slots, funs, room)?;
    Ok(Process { sensitive, body })
}

// Puts places in place of the names of processes, and raises `room`, the bits of scratch that is enough, to theirs.
pub fn resolve_processes(
    alloc: Global,
    processes: &[vh_tree::Process],
    slots: &Table<Slot>,
    funs: &Table<Known>,
    room: &mut u32,
) -> Result<Items<Process>, OutOfMemory>
    ensures stand { IfOk result (λ ps. AreProcesses (slots_in slots.now) (frames_in funs.now) processes.now ps) }
    ensures room { IfOk result (λ ps. (n : ℕ) (now : Bits) → room_ran ps n now ≤ room.new) }
{
    let mut out = Items::new(alloc);
    for process in processes {
        let r = resolve_process(alloc, process, slots, funs, room)?;
        out.push(r)?;
    }
    Ok(out)
}
