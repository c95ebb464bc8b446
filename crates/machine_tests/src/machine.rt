// What no clause says: that the call succeeds, and how the smallest machine looks.
ghost use Rattle.std.specs.Prelude.{◌≡◌, [], ◌∷◌, IfOk};
ghost use Rattle.register_machine.specs.Machine.{IsMachine};

use register_machine::{Machine, State, design};
use rw_base::OutOfMemory;
use sqlite_items::Items;
use std::alloc::Global;
use std::test::Fail;

/// A state of two inputs.
fn state(alloc: Global, shown: usize, off: usize, on: usize) -> Result<State, OutOfMemory>
    ensures { IfOk result (λ s. s ≡ record { shown = shown; next = off ∷ on ∷ [] }) }
{
    let mut next = Items::new(alloc);
    next.push(off)?;
    next.push(on)?;
    Ok(State { shown, next })
}

/// A switch that each `1` turns over.
fn switch(alloc: Global) -> Result<Machine, OutOfMemory>
    ensures { IfOk result IsMachine }
{
    let mut states = Items::new(alloc);
    states.push(state(alloc, 0, 0, 1)?)?;
    states.push(state(alloc, 1, 1, 0)?)?;
    Ok(Machine {
        inputs: 2,
        outputs: 2,
        reset: 0,
        states,
    })
}

#[test]
fn two_state_switch_is_a_register_and_two_functions(rt: HostRuntime) -> Result<(), Fail> {
    let alloc = rt.alloc();
    let machine = switch(alloc)?;
    let design = design(alloc, &machine)?;
    assert_eq!(rt; (design.inp, design.outp), (1, 1));
    assert_eq!(rt; design.items.len(), 3);
    assert_eq!(rt; design.processes.len(), 2);
    Ok(())
}
