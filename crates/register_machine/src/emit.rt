// The design of a machine.
ghost use Rattle.std.specs.Prelude.{◌≡◌, IfOk};
ghost use Rattle.register_machine.specs.Machine.{IsMachine};
ghost use Rattle.register_machine.specs.Design.{machine_items, machine_design};

use crate::Machine;
use crate::codes::code_width;
use crate::functions::{next_function, shown_function};
use crate::parts::{coded, one, two};
use crate::processes::{clocked_process, showing_process};
use rw_base::OutOfMemory;
use sqlite_items::Items;
use std::alloc::Global;
use vh_tree::{Design, Item};

/// The register `s0`, then `f0` and `f1`.
fn items(alloc: Global, machine: &Machine) -> Result<Items<Item>, OutOfMemory>
    requires { IsMachine machine.now }
    ensures { IfOk result (λ items. items ≡ machine_items machine.now) }
{
    let register = coded(alloc, b"s0", machine.states.len())?;
    let mut items = one(alloc, Item::Signal(register))?;
    items.push(Item::Function(next_function(alloc, machine)?))?;
    items.push(Item::Function(shown_function(alloc, machine)?))?;
    Ok(items)
}

/// The design that shows a machine: `inp` has the code of the input, `outp` that of the output.
///
/// A process keeps the code of the state in `s0` (IEEE Std 1076-1993, section 9.2), which a reset, at a rising
/// edge of `clk`, puts back to the first state. Another process shows the output. The time and the memory that it
/// takes grow with the size of the design alone.
pub fn design(alloc: Global, machine: &Machine) -> Result<Design, OutOfMemory>
    requires { IsMachine machine.now }
    ensures { IfOk result (λ design. design ≡ machine_design machine.now) }
{
    let keeps = clocked_process(alloc, machine.states.len(), machine.reset)?;
    let shows = showing_process(alloc)?;
    Ok(Design {
        inp: code_width(machine.inputs),
        outp: code_width(machine.outputs),
        items: items(alloc, machine)?,
        processes: two(alloc, keeps, shows)?,
    })
}
