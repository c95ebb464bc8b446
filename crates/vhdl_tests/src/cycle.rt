// Worked designs, run as the bench runs them.

use crate::texts::{OSCILLATING, SWITCH};
use rw_base::Bit9;
use std::test::Fail;
use vh_tree_static::check_static;
use vhdl_cycle::{NotSettled, Sim};
use vhdl_read::read;

#[test]
fn two_state_switch(rt: HostRuntime) -> Result<(), Fail> {
    let alloc = rt.alloc();
    let design = read(alloc, SWITCH)?;
    check_static(alloc, &design)?;
    let mut sim = Sim::new(alloc, &design)?;
    sim.settle()?;
    sim.edge()?;
    assert!(rt; sim.outp() == [Bit9::Zero].as_slice());
    let rows = [
        (Bit9::One, Bit9::One),
        (Bit9::One, Bit9::Zero),
        (Bit9::Zero, Bit9::Zero),
    ];
    for (input, output) in rows {
        sim.cycle(Bit9::Zero, &[input])?;
        assert!(rt; sim.outp() == [output].as_slice());
    }
    Ok(())
}

#[test]
fn oscillator_never_settles(rt: HostRuntime) -> Result<(), Fail> {
    let alloc = rt.alloc();
    let design = read(alloc, OSCILLATING)?;
    check_static(alloc, &design)?;
    let mut sim = Sim::new(alloc, &design)?;
    assert!(rt; matches!(sim.settle(), Err(NotSettled(1))));
    Ok(())
}
