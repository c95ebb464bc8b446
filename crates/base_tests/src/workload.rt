// Sources and inputs that a script of its own made with the published generator, compared with ours.
use rw_gen::{inputs, source};
use std::test::Fail;

const TWO_STATES: &[u8] = b"data S = S0 | S1\nstart :: ReT Bool S I ()\nstart = d0\n\
d0 :: ReT Bool S I ()\nd0 = signal S0 >>= \\x -> case x of { False -> d1 ; True -> d0 }\n\
d1 :: ReT Bool S I ()\nd1 = signal S1 >>= \\x -> case x of { False -> d1 ; True -> d1 }\n";

const LAST_OF_1024: &[u8] =
    b"d1023 :: ReT Bool S I ()\nd1023 = signal S1023 >>= \\x -> case x of { False -> d50 ; True -> d293 }\n";

#[test]
fn one_state_takes_134_bytes(rt: HostRuntime) -> Result<(), Fail> {
    assert_eq!(rt; source(rt.alloc(), 1, 1)?.len(), 134);
    Ok(())
}

#[test]
fn two_states_of_number_7(rt: HostRuntime) -> Result<(), Fail> {
    assert_eq!(rt; source(rt.alloc(), 7, 2)?.as_slice(), TWO_STATES);
    Ok(())
}

#[test]
fn most_states_of_number_7(rt: HostRuntime) -> Result<(), Fail> {
    let text = source(rt.alloc(), 7, 1024)?;
    assert_eq!(rt; text.len(), 105013);
    assert!(rt; text.ends_with(LAST_OF_1024));
    Ok(())
}

#[test]
fn inputs_follow_the_draws_of_the_source(rt: HostRuntime) -> Result<(), Fail> {
    let first = [false, false, true, true, true, true, true, false];
    for (size, ones) in [(2, 497), (1024, 508)] {
        let inputs = inputs(rt.alloc(), 7, size)?;
        assert_eq!(rt; inputs.len(), 1000);
        assert_eq!(rt; inputs.iter().filter(|input| **input).count(), ones);
        assert!(rt; size != 2 || inputs.starts_with(&first));
    }
    Ok(())
}
