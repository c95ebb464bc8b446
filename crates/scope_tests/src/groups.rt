// How many places small groups have, found with ample memory.

use crate::source::program_of;
use rw_scope_binding::bind;
use rw_scope_groups::cyclic;
use std::test::Fail;

#[test]
fn bindings_that_mention_each_other_or_themselves_are_cyclic(rt: HostRuntime) -> Result<(), Fail> {
    let table: [(&[u8], usize); 2] = [
        (b"f = a where\n a = b\n b = a\n", 2),
        (b"f = a where\n a = f\n b = b\n", 1),
    ];
    for (source, places) in table {
        let bound = bind(rt.alloc(), &program_of(rt.alloc(), source)?)?;
        assert_eq!(rt; cyclic(rt.alloc(), &bound)?.len(), places);
    }
    Ok(())
}

#[test]
fn bindings_may_mention_others_and_names_that_hide_theirs(rt: HostRuntime) -> Result<(), Fail> {
    let source = b"f = a where\n a = b\n b = \\a -> a\n".as_slice();
    let bound = bind(rt.alloc(), &program_of(rt.alloc(), source)?)?;
    assert_eq!(rt; cyclic(rt.alloc(), &bound)?.len(), 0);
    Ok(())
}
