// Names of a design are copied.

use std::test::Fail;
use vh_tree::Ident;

#[test]
fn names_are_copied(rt: HostRuntime) -> Result<(), Fail> {
    let name = Ident::from_slice(rt.alloc(), b"s0")?;
    let again = name.copied(rt.alloc())?;
    assert_eq!(rt; again.as_slice(), b"s0".as_slice());
    Ok(())
}
