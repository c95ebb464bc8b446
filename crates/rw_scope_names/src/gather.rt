// The names that declarations declare, as sets.
ghost use Rattle.std.specs.Prelude.{◌≡◌, ◌||◌, OnOk, flat_map, map};
ghost use Rattle.rw_tree.specs.Views.{itself};
ghost use Rattle.rw_tree.specs.Declarations.{declaration, plain_constructor};
ghost use Rattle.rw_scope_rules.specs.Names.{Bytes, is_among};
ghost use Rattle.rw_scope_rules.specs.Bindings.{names_of};
ghost use Rattle.rw_scope_rules.specs.Scope.{constructors_at, functions_at, signatures_at, types_at};

use crate::names::Names;
use rw_base::{Name, OutOfMemory, Span};
use rw_tree::{Constructor, Decl};
use std::alloc::Global;

// Puts in these names.
pub fn put_all(alloc: Global, set: &mut Names, names: &[Name]) -> Result<(), OutOfMemory>
    ensures { OnOk result ((x : Bytes) → is_among x set.new ≡ (is_among x names.now || is_among x set.old)) }
{
    for name in names {
        set.put(name.copied(alloc)?)?;
    }
    Ok(())
}

// Puts in the names of these constructors.
fn put_made(alloc: Global, set: &mut Names, constructors: &[Constructor]) -> Result<(), OutOfMemory>
    ensures { OnOk result ((x : Bytes) → is_among x set.new ≡ (is_among x (map (λ c. c.constructor_name) (map plain_constructor constructors.now)) || is_among x set.old)) }
{
    for constructor in constructors {
        set.put(constructor.name.copied(alloc)?)?;
    }
    Ok(())
}

// Puts in the functions and variables of these declarations.
pub fn put_functions(
    alloc: Global,
    set: &mut Names,
    decls: &[Decl<Span>],
) -> Result<(), OutOfMemory>
    ensures { OnOk result ((x : Bytes) → is_among x set.new ≡ (is_among x (names_of (flat_map functions_at (map (declaration itself) decls.now))) || is_among x set.old)) }
{
    for decl in decls {
        if let Decl::Fun(_, name, _) = decl {
            set.put(name.copied(alloc)?)?;
        }
    }
    Ok(())
}

// Puts in the names for which these declarations have signatures.
pub fn put_signatures(
    alloc: Global,
    set: &mut Names,
    decls: &[Decl<Span>],
) -> Result<(), OutOfMemory>
    ensures { OnOk result ((x : Bytes) → is_among x set.new ≡ (is_among x (names_of (flat_map signatures_at (map (declaration itself) decls.now))) || is_among x set.old)) }
{
    for decl in decls {
        if let Decl::Sig(_, names, _) = decl {
            put_all(alloc, set, names.as_slice())?;
        }
    }
    Ok(())
}

// Puts in the data types of these declarations.
pub fn put_types(alloc: Global, set: &mut Names, decls: &[Decl<Span>]) -> Result<(), OutOfMemory>
    ensures { OnOk result ((x : Bytes) → is_among x set.new ≡ (is_among x (names_of (flat_map types_at (map (declaration itself) decls.now))) || is_among x set.old)) }
{
    for decl in decls {
        if let Decl::Data(_, made) = decl {
            set.put(made.name.copied(alloc)?)?;
        }
    }
    Ok(())
}

// Puts in the constructors of these declarations.
pub fn put_constructors(
    alloc: Global,
    set: &mut Names,
    decls: &[Decl<Span>],
) -> Result<(), OutOfMemory>
    ensures { OnOk result ((x : Bytes) → is_among x set.new ≡ (is_among x (names_of (flat_map constructors_at (map (declaration itself) decls.now))) || is_among x set.old)) }
{
    for decl in decls {
        if let Decl::Data(_, made) = decl {
            put_made(alloc, set, made.constructors.as_slice())?;
        }
    }
    Ok(())
}
