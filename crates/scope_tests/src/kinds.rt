// How many places of types of a wrong kind small programs have, found with ample memory.

use crate::source::program_of;
use rw_scope_kinds::{misused, recursive_or_empty};
use std::test::Fail;

#[test]
fn a_signature_may_have_a_monad_but_a_local_one_no_variable(rt: HostRuntime) -> Result<(), Fail> {
    let program = program_of(rt.alloc(), b"data T = C T\nf :: m T\n".as_slice())?;
    assert_eq!(rt; misused(rt.alloc(), &program)?.len(), 0);
    let program = program_of(
        rt.alloc(),
        b"data T = C T\nf = x where x :: m T\n".as_slice(),
    )?;
    assert_eq!(rt; misused(rt.alloc(), &program)?.len(), 1);
    Ok(())
}

#[test]
fn a_field_has_no_arrow_and_a_data_type_no_more_arguments_than_variables(
    rt: HostRuntime,
) -> Result<(), Fail> {
    let program = program_of(rt.alloc(), b"data T = C (T -> T)\nf :: T T\n".as_slice())?;
    assert_eq!(rt; misused(rt.alloc(), &program)?.len(), 2);
    Ok(())
}

#[test]
fn data_types_lead_to_themselves_or_have_no_constructor(rt: HostRuntime) -> Result<(), Fail> {
    let table: [(&[u8], usize); 3] = [
        (b"data T = C U\ndata U\n", 1),
        (b"data T = C U\ndata U = D T\n", 2),
        (b"data T = C U\ndata U = D V\n", 0),
    ];
    for (source, places) in table {
        let program = program_of(rt.alloc(), source)?;
        assert_eq!(rt; recursive_or_empty(rt.alloc(), &program)?.len(), places);
    }
    Ok(())
}
