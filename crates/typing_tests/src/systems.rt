// The parts of small bodies of `start`, found with ample memory.

use crate::source::bound_of;
use rw_scope_rules::{Binding, Bound};
use rw_systems::{Parts, split};
use rw_tree::{Decl, Expr, Program, Rhs};
use std::test::Fail;

/// The right side of a declaration of `start` by one clause.
fn body_in<'a>(decl: &'a Decl<Bound>) -> Option<&'a Expr<Bound>> {
    let Decl::Fun(_, name, clauses) = decl else {
        return None;
    };
    match clauses.as_slice() {
        [clause] if name.is(b"start") => match &clause.rhs {
            Rhs::Plain(body) => Some(body),
            Rhs::Guarded(_) => None,
        },
        _ => None,
    }
}

/// That of a program.
fn body<'a>(program: &'a Program<Bound>) -> Result<&'a Expr<Bound>, Fail> {
    for decl in program.decls.as_slice() {
        if let Some(body) = body_in(decl) {
            return Ok(body);
        }
    }
    Err("no start")?
}

/// The number of the function that a device is.
fn number(parts: &Parts<'_, Bound>) -> u32 {
    match parts {
        Parts::Leaf(Expr::Var(at, _)) => match at.bound {
            Some(Binding::Declared(number)) => number,
            _ => 100,
        },
        _ => 200,
    }
}

#[test]
fn a_device_is_a_leaf(rt: HostRuntime) -> Result<(), Fail> {
    let alloc = rt.alloc();
    let whole = bound_of(alloc, b"d = d\nstart = d".as_slice())?;
    assert_eq!(rt; number(&split(alloc, body(&whole)?)?), 0);
    Ok(())
}

#[test]
fn devices_stand_side_by_side_in_order(rt: HostRuntime) -> Result<(), Fail> {
    let alloc = rt.alloc();
    let whole = bound_of(alloc, b"start = (par d) e\nd = d\ne = e".as_slice())?;
    match split(alloc, body(&whole)?)? {
        Parts::Par(left, right) => {
            assert_eq!(rt; number(left.get()), 1);
            assert_eq!(rt; number(right.get()), 2);
        }
        _ => return Err("not side by side")?,
    }
    Ok(())
}

#[test]
fn a_device_is_fed_back(rt: HostRuntime) -> Result<(), Fail> {
    let alloc = rt.alloc();
    let whole = bound_of(
        alloc,
        b"start = refold f g d\nf = f\ng = g\nd = d".as_slice(),
    )?;
    match split(alloc, body(&whole)?)? {
        Parts::Refold(output, input, device) => {
            assert_eq!(rt; number(&Parts::Leaf(output)), 1);
            assert_eq!(rt; number(&Parts::Leaf(input)), 2);
            assert_eq!(rt; number(device.get()), 3);
        }
        _ => return Err("not fed back")?,
    }
    Ok(())
}
