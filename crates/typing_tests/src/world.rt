// The worlds of small programs.

use crate::source::bound_of;
use rw_base::Fail as Unread;
use rw_types_equations::{Scheme, World};
use rw_types_rules::VariableKind;
use rw_types_solving::{Head, Term};
use rw_types_world::world;
use std::alloc::Global;
use std::test::Fail;

/// The world of a signature, a data type, the function `g`, and a function `h` without a signature.
fn program(alloc: Global) -> Result<World, Unread> {
    let source = b"f, g :: m a -> StateT a s b\ndata P a = L | R a\ng = g\nh = h".as_slice();
    let bound = bound_of(alloc, source)?;
    Ok(world(alloc, bound.decls.as_slice())?)
}

/// Whether the type is a function that gives a computation.
fn gives_computation(scheme: &Scheme) -> bool {
    match &scheme.gives {
        Term::App(Head::Fun, parts) => { matches!(parts.get(1), Some(Term::App(Head::Comp, _))) }
        _ => false,
    }
}

#[test]
fn a_function_has_the_type_of_its_signature(rt: HostRuntime) -> Result<(), Fail> {
    let world = program(rt.alloc())?;
    assert!(rt; world.declared.len() == 4);
    assert!(rt; matches!(world.declared.get(0), Some(None)));
    assert!(rt; matches!(world.declared.get(3), Some(None)));
    match world.declared.get(2) {
        Some(Some(scheme)) => {
            let wanted = [
                VariableKind::Monad,
                VariableKind::Plain,
                VariableKind::StateMonad,
                VariableKind::Plain,
            ];
            assert!(rt; scheme.kinds.as_slice() == wanted.as_slice());
            assert!(rt; gives_computation(scheme));
        }
        _ => assert!(rt; false),
    }
    Ok(())
}

#[test]
fn a_constructor_takes_its_fields(rt: HostRuntime) -> Result<(), Fail> {
    let world = program(rt.alloc())?;
    assert!(rt; world.types.len() == 1);
    assert!(rt; world.constructed.len() == 4);
    match world.constructed.get(1) {
        Some(schemes) => {
            assert!(rt; schemes.len() == 2);
            for (fields, scheme) in schemes.as_slice().iter().enumerate() {
                assert!(rt; scheme.kinds.len() == 1);
                assert!(rt; scheme.takes.len() == fields);
                assert!(rt; matches!(scheme.gives, Term::App(Head::Data(1), _)));
            }
        }
        None => assert!(rt; false),
    }
    Ok(())
}
