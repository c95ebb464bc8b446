// The places of a design's names.

use crate::texts::SWITCH;
use std::test::Fail;
use vhdl_cycle_resolve::resolve;
use vhdl_read::read;

// Five ports and signals of one bit each; two parameters and three variables of one bit; and two bits of scratch, for the
// arguments of the call.
#[test]
fn the_switch_has_places_for_its_names(rt: HostRuntime) -> Result<(), Fail> {
    let alloc = rt.alloc();
    let resolved = resolve(alloc, &read(alloc, SWITCH)?)?;
    assert_eq!(rt; resolved.processes.len(), 2);
    assert_eq!(rt; resolved.wires, 5);
    assert_eq!(rt; resolved.bits, 5);
    assert_eq!(rt; resolved.store, 5);
    assert_eq!(rt; resolved.room, 2);
    Ok(())
}
