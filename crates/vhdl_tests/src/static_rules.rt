// Which rule is the first that a design breaks, where it breaks one.

use crate::designs::{Plan, SWITCH, oscillating, pass, switch, switch_with_low};
use rw_base::{OutOfMemory, VRule};
use std::alloc::Global;
use vh_tree::Design;
use vh_tree_static::{VFail, check_static};

type Made<T> = Result<T, OutOfMemory>;

fn accepts(alloc: Global, design: &Design) -> bool {
    matches!(check_static(alloc, design), Ok(()))
}

fn refuses(alloc: Global, rule: VRule, design: &Design) -> bool {
    match check_static(alloc, design) {
        Err(VFail::Refused(broken)) => broken == rule,
        _ => false,
    }
}

#[test]
fn accepts_static_designs(rt: HostRuntime) -> Made<()> {
    let alloc = rt.alloc();
    assert!(rt; accepts(alloc, &switch(alloc, SWITCH)?));
    assert!(rt; accepts(alloc, &oscillating(alloc)?));
    assert!(rt; accepts(alloc, &pass(alloc, 1024)?));
    Ok(())
}

#[test]
fn refuses_by_the_first_broken_rule(rt: HostRuntime) -> Made<()> {
    let alloc = rt.alloc();
    let undeclared = Plan {
        shown: b"s1",
        ..SWITCH
    };
    let narrow = Plan { width: 2, ..SWITCH };
    let driven_twice = Plan {
        driven: b"outp",
        ..SWITCH
    };
    let early = Plan {
        result: b"f1",
        ..SWITCH
    };
    let broken = [
        (undeclared, VRule::V4),
        (narrow, VRule::V5),
        (driven_twice, VRule::V6),
        (early, VRule::V7),
        (
            Plan {
                shown: b"s1",
                ..driven_twice
            },
            VRule::V4,
        ),
        (Plan { width: 2, ..early }, VRule::V5),
    ];
    for (plan, rule) in broken {
        assert!(rt; refuses(alloc, rule, &switch_with_low(alloc, plan)?));
    }
    assert!(rt; refuses(alloc, VRule::V8, &pass(alloc, 1025)?));
    Ok(())
}
