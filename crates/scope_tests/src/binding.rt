// What the names of a small function are bound to, found with ample memory.

use crate::source::program_of;
use rw_scope_binding::bind;
use rw_scope_rules::{Binding, Bound};
use rw_tree::{Alt, Decl, Expr, Rhs};
use std::test::Fail;

/// What the body of a lambda is bound to.
fn innermost(expr: &Expr<Bound>) -> Option<Binding> {
    match expr {
        Expr::Lambda(_, _, body) => match body.get() {
            Expr::Var(at, _) => at.bound,
            _ => None,
        },
        _ => None,
    }
}

/// What the body of the lambda of the first clause is bound to.
fn in_row(rows: &[Alt<Bound>]) -> Option<Binding> {
    match rows {
        [row] => match &row.rhs {
            Rhs::Plain(body) => innermost(body),
            Rhs::Guarded(_) => None,
        },
        _ => None,
    }
}

#[test]
fn the_innermost_binder_counts(rt: HostRuntime) -> Result<(), Fail> {
    let alloc = rt.alloc();
    let source = program_of(alloc, b"f x = \\x -> x".as_slice())?;
    let bound = bind(alloc, &source)?;
    match bound.decls.as_slice() {
        [Decl::Fun(at, _, rows)] => {
            assert!(rt; at.bound == Some(Binding::Declared(0)));
            assert!(rt; in_row(rows.as_slice()) == Some(Binding::Local(1)));
        }
        _ => return Err("another declaration")?,
    }
    Ok(())
}
