// Small programs with a fault on a line of its own each, found with ample memory.

use crate::source::program_of;
use rw_base::Place;
use rw_scope_binding::bind;
use rw_scope_names::{
    declared_twice, repeated_at_top, repeated_in_functions, unbound, unknown_modules, unpaired,
};
use rw_scope_rules::earliest;
use std::test::Fail;

/// Whether these places are on these lines.
fn are_on(places: &[Place], lines: &[u32]) -> bool {
    if places.len() != lines.len() {
        return false;
    }
    for (place, line) in places.iter().zip(lines) {
        if place.line != *line {
            return false;
        }
    }
    true
}

// A name is declared twice in a clause, a lambda, an alternative, a statement, a group and among its signatures; in one clause each `x`
// hides the one before it.
const TWICE: &[u8] = b"x x
 x = x
x = \\x
 x -> x
x = case x of
 (x,
  x) -> x
z = z
x x = x where x = x
x = do
 (x,
  x) <- x
 x
x = x where
 x = x
 z = z
 x = x
x = x where
 x :: x
 x :: x
";

#[test]
fn a_name_is_declared_again_where_it_stands_second(rt: HostRuntime) -> Result<(), Fail> {
    let program = program_of(rt.alloc(), TWICE)?;
    let inside = repeated_in_functions(rt.alloc(), &program)?;
    assert!(rt; are_on(inside.as_slice(), &[2, 4, 7, 12, 17, 20]));
    let all = declared_twice(rt.alloc(), &program)?;
    assert!(rt; are_on(all.as_slice(), &[9, 2, 4, 7, 12, 17, 20]));
    Ok(())
}

// `y` has a signature alone, `z` has none, and two functions have clauses of unequal numbers of patterns.
const LONELY: &[u8] = b"x :: x
y :: x
x = x
x x = x
z = x where
 x = x
 x x = x
";

#[test]
fn signatures_stand_alone_and_clauses_are_uneven(rt: HostRuntime) -> Result<(), Fail> {
    let program = program_of(rt.alloc(), LONELY)?;
    let places = unpaired(rt.alloc(), &program)?;
    assert!(rt; are_on(places.as_slice(), &[2, 5, 4, 7]));
    Ok(())
}

// Unbound are a type variable, types, an operator, a constructor in a pattern and in an expression, and a variable; `I` is a type.
const ASTRAY: &[u8] = b"data A = A x
data B = B Y
data E = E I
x :: Y
infixl 5 +++
x
 K
 = z
   L
 where
  w :: Y
";

#[test]
fn names_are_bound_to_nothing(rt: HostRuntime) -> Result<(), Fail> {
    let program = program_of(rt.alloc(), ASTRAY)?;
    let bound = bind(rt.alloc(), &program)?;
    let places = unbound(rt.alloc(), &program, &bound)?;
    assert!(rt; are_on(places.as_slice(), &[1, 2, 4, 5, 7, 8, 9, 11]));
    Ok(())
}

const TOP: &[u8] = b"import ReWire
import Data.Bits
x = x
get = x
x = x
";

#[test]
fn modules_are_unknown_and_operations_are_declared(rt: HostRuntime) -> Result<(), Fail> {
    let program = program_of(rt.alloc(), TOP)?;
    let modules = unknown_modules(rt.alloc(), &program)?;
    assert!(rt; are_on(modules.as_slice(), &[2]));
    let names = repeated_at_top(rt.alloc(), program.decls.as_slice())?;
    assert!(rt; are_on(names.as_slice(), &[4, 5]));
    assert_eq!(rt;
        earliest(names.as_slice()),
        Some(Place { line: 4, column: 1 })
    );
    Ok(())
}
