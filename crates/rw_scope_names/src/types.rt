// E08: the names in a type as written (Haskell 2010 Report, section 4.1.2).
ghost use Rattle.std.specs.Prelude.{◌≡◌, flat_map, map};
ghost use Rattle.rw_tree.specs.Types.{type_parts, written as plain_type, writtens};
ghost use Rattle.rw_tree.specs.Declarations.{plain_constructor};
ghost use Rattle.rw_scope_rules.specs.Scope.{are_among, fields_of, type_constructors, type_variables, types_constructors, types_variables};

use crate::names::Names;
use rw_tree::{Constructor, Written};

// Whether each type constructor of a type is one of these.
#[cycle(constructors)]
pub fn constructors_are(written: &Written, known: &Names) -> bool
    ensures { result ≡ are_among (type_constructors (plain_type written.now)) known.now }
{
    match written {
        Written::Var(_) => true,
        Written::Con(name) => known.has(name),
        Written::Apply(head, parts) => {
            constructors_are(head.get(), known) && all_constructors_are(parts.as_slice(), known)
        }
        Written::Fun(from, to) => {
            constructors_are(from.get(), known) && constructors_are(to.get(), known)
        }
        Written::Tuple(parts) => all_constructors_are(parts.as_slice(), known),
    }
}

// Whether each type constructor of these types is.
#[cycle(constructors)]
fn all_constructors_are(types: &[Written], known: &Names) -> bool
    ensures list { result ≡ are_among (flat_map type_constructors (writtens types.now)) known.now }
    ensures parts { result ≡ are_among (types_constructors (type_parts (writtens types.now))) known.now }
{
    for written in types {
        if !constructors_are(written, known) {
            return false;
        }
    }
    true
}

// Whether each type variable of a type is one of these.
#[cycle(variables)]
fn variables_are(written: &Written, known: &Names) -> bool
    ensures { result ≡ are_among (type_variables (plain_type written.now)) known.now }
{
    match written {
        Written::Var(name) => known.has(name),
        Written::Con(_) => true,
        Written::Apply(head, parts) => {
            variables_are(head.get(), known) && all_variables_are(parts.as_slice(), known)
        }
        Written::Fun(from, to) => {
            variables_are(from.get(), known) && variables_are(to.get(), known)
        }
        Written::Tuple(parts) => all_variables_are(parts.as_slice(), known),
    }
}

// Whether each type variable of these types is.
#[cycle(variables)]
fn all_variables_are(types: &[Written], known: &Names) -> bool
    ensures list { result ≡ are_among (flat_map type_variables (writtens types.now)) known.now }
    ensures parts { result ≡ are_among (types_variables (type_parts (writtens types.now))) known.now }
{
    for written in types {
        if !variables_are(written, known) {
            return false;
        }
    }
    true
}

// Whether each type constructor of the fields of these constructors is one of these.
pub fn field_constructors_are(constructors: &[Constructor], known: &Names) -> bool
    ensures { result ≡ are_among (flat_map type_constructors (fields_of (map plain_constructor constructors.now))) known.now }
{
    for constructor in constructors {
        if !all_constructors_are(constructor.fields.as_slice(), known) {
            return false;
        }
    }
    true
}

// Whether each type variable of the fields of these constructors is one of these.
pub fn field_variables_are(constructors: &[Constructor], known: &Names) -> bool
    ensures { result ≡ are_among (flat_map type_variables (fields_of (map plain_constructor constructors.now))) known.now }
{
    for constructor in constructors {
        if !all_variables_are(constructor.fields.as_slice(), known) {
            return false;
        }
    }
    true
}
