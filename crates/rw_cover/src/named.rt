// What `otherwise` and `True` are bound to.
ghost use Rattle.std.specs.Prelude.{◌≡◌, IfOk, codes, map};
ghost use Rattle.rw_tree.specs.Views.{itself};
ghost use Rattle.rw_tree.specs.Declarations.{declaration, plain_constructor};
ghost use Rattle.rw_scope_rules.specs.Names.{first_named};
ghost use Rattle.rw_scope_rules.specs.Bindings.{declared_by, declared_constructors, declared_variables, placed_constructors};
ghost use Rattle.rw_cover.specs.Rows.{known_of as known_by};

use crate::Known;
use rw_base::OutOfMemory;
use rw_scope_rules::{Binding, Bound};
use rw_tree::{Constructor, Decl};

// A number of 32 bits: more declarations are want of memory.
fn number(at: usize) -> Result<u32, OutOfMemory>
    ensures { IfOk result (λ number. number ≡ at) }
{
    if at > u32::MAX as usize {
        return Err(OutOfMemory);
    }
    Ok(at as u32)
}

// The function or variable with this name: the first that these declarations declare.
fn function_named(name: &[u8], decls: &[Decl<Bound>]) -> Result<Option<Binding>, OutOfMemory>
    ensures { IfOk result (λ found. found ≡ first_named name.now (declared_by declared_variables 0 (map (declaration itself) decls.now))) }
{
    for at in 0..decls.len() {
        if let Decl::Fun(_, declared, _) = &decls[at] {
            if declared.is(name) {
                return Ok(Some(Binding::Declared(number(at)?)));
            }
        }
    }
    Ok(None)
}

// The constructor with this name among those of the declaration with this number.
fn place_of(
    name: &[u8],
    decl: usize,
    constructors: &[Constructor],
) -> Result<Option<Binding>, OutOfMemory>
    ensures { IfOk result (λ found. found ≡ first_named name.now (placed_constructors decl 0 (map plain_constructor constructors.now))) }
{
    for at in 0..constructors.len() {
        if constructors[at].name.is(name) {
            return Ok(Some(Binding::Constructor(number(decl)?, number(at)?)));
        }
    }
    Ok(None)
}

// The constructor with this name that the declaration with this number declares.
fn constructor_in(
    name: &[u8],
    at: usize,
    decl: &Decl<Bound>,
) -> Result<Option<Binding>, OutOfMemory>
    ensures { IfOk result (λ found. found ≡ first_named name.now (declared_constructors at (declaration itself decl.now))) }
{
    match decl {
        Decl::Data(_, made) => place_of(name, at, made.constructors.as_slice()),
        _ => Ok(None),
    }
}

// The constructor with this name: the first that these declarations declare.
fn constructor_named(name: &[u8], decls: &[Decl<Bound>]) -> Result<Option<Binding>, OutOfMemory>
    ensures { IfOk result (λ found. found ≡ first_named name.now (declared_by declared_constructors 0 (map (declaration itself) decls.now))) }
{
    for at in 0..decls.len() {
        let found = constructor_in(name, at, &decls[at])?;
        if found.is_some() {
            return Ok(found);
        }
    }
    Ok(None)
}

/// What `otherwise` and `True` are bound to in a program of these declarations: the first function and the first
/// constructor with the name, which are the prelude's where the program begins with it. It takes no memory; a program with
/// 2^32 declarations, or with a data type with as many constructors, counts as want of it.
pub fn known_of(decls: &[Decl<Bound>]) -> Result<Known, OutOfMemory>
    ensures { IfOk result (λ known. known ≡ known_by (map (declaration itself) decls.now)) }
{
    let otherwise = function_named(b"otherwise", decls)?;
    let truth = constructor_named(b"True", decls)?;
    Ok(Known { otherwise, truth })
}
