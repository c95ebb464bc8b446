// Designs made by hand, and the texts that they must give.

use crate::designs::{self, oscillating, switch};
use crate::texts::{OSCILLATING, SWITCH};
use std::test::Fail;
use vhdl_print::print;
use vhdl_read::read;

#[test]
fn designs_made_by_hand(rt: HostRuntime) -> Result<(), Fail> {
    let alloc = rt.alloc();
    let text = print(alloc, &switch(alloc, designs::SWITCH)?)?;
    assert_eq!(rt; text.as_slice(), SWITCH);
    let text = print(alloc, &oscillating(alloc)?)?;
    assert_eq!(rt; text.as_slice(), OSCILLATING);
    Ok(())
}

#[test]
fn the_switch_read_and_printed_is_the_same_text(rt: HostRuntime) -> Result<(), Fail> {
    let alloc = rt.alloc();
    let design = read(alloc, SWITCH).map_err(|_| "refused")?;
    let text = print(alloc, &design)?;
    assert_eq!(rt; text.as_slice(), SWITCH);
    Ok(())
}
