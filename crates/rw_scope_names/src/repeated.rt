// E07, step by step: the places of names that were seen before.
ghost use Rattle.std.specs.Prelude.{◌≡◌, ◌++◌, ◌∷◌, List, OnOk};
ghost use Rattle.rw_base.specs.declared.place.Span.{Span as PlainSpan};
ghost use Rattle.rw_scope_rules.specs.Names.{Bytes, repeated};
ghost use Rattle.rw_scope_rules.specs.Scope.{spread};

use crate::names::Names;
use rw_base::{Name, OutOfMemory, Place, Span};
use std::alloc::Global;

// One name more: its place counts if the name was seen before. Whatever comes after it is judged as behind it.
pub fn see(
    alloc: Global,
    seen: &mut Names,
    places: &mut Vec<Place>,
    name: &Name,
    at: Span,
) -> Result<(), OutOfMemory>
    ensures { OnOk result ((rest : List (Bytes × PlainSpan)) → places.new.items ++ repeated seen.new rest ≡ places.old.items ++ repeated seen.old ((name.now, at) ∷ rest)) }
{
    if !seen.add(name.copied(alloc)?)? {
        places.push(at.first)?;
    }
    Ok(())
}

// These names more, all of one declaration.
pub fn see_all(
    alloc: Global,
    seen: &mut Names,
    places: &mut Vec<Place>,
    names: &[Name],
    at: Span,
) -> Result<(), OutOfMemory>
    ensures { OnOk result ((rest : List (Bytes × PlainSpan)) → places.new.items ++ repeated seen.new rest ≡ places.old.items ++ repeated seen.old (spread at names.now ++ rest)) }
{
    for name in names {
        see(alloc, seen, places, name, at)?;
    }
    Ok(())
}
