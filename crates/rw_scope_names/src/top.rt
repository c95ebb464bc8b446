// E07 at top level: variables, types, constructors, signatures and fixities, each apart from the others, and the heads of
// data types (Haskell 2010 Report, sections 4.4 and 5).
ghost use Rattle.std.specs.Prelude.{◌≡◌, ◌++◌, [], List, OnOk, IfOk, map, flat_map};
ghost use Rattle.rw_base.specs.declared.place.Span.{Span as PlainSpan};
ghost use Rattle.rw_tree.specs.Views.{itself};
ghost use Rattle.rw_tree.specs.Declarations.{declaration, plain_constructor};
ghost use Rattle.rw_scope_rules.specs.Names.{Bytes, repeated};
ghost use Rattle.rw_scope_rules.specs.Scope.{constructors_at, fixities_at, functions_at, repeated_at_top as repeated_of, repeated_in_head, signatures_at, types_at, spread};

use crate::names::Names;
use crate::repeated::{see, see_all};
use crate::taken::{operations, taken_types};
use rw_base::{OutOfMemory, Place, Span};
use rw_tree::{Constructor, DataDecl, Decl};
use std::alloc::Global;

// The variables of a data type's head.
fn see_head(
    alloc: Global,
    places: &mut Vec<Place>,
    made: &DataDecl,
    at: Span,
) -> Result<(), OutOfMemory>
    ensures { OnOk result (places.new.items ≡ places.old.items ++ repeated [] (spread at made.now.params)) }
{
    let mut seen = Names::new(alloc);
    see_all(alloc, &mut seen, places, made.params.as_slice(), at)
}

// The constructors of a data type.
fn see_constructors(
    alloc: Global,
    seen: &mut Names,
    places: &mut Vec<Place>,
    constructors: &[Constructor],
    at: Span,
) -> Result<(), OutOfMemory>
    ensures { OnOk result ((rest : List (Bytes × PlainSpan)) → places.new.items ++ repeated seen.new rest ≡ places.old.items ++ repeated seen.old (spread at (map (λ c. c.constructor_name) (map plain_constructor constructors.now)) ++ rest)) }
{
    for constructor in constructors {
        see(alloc, seen, places, &constructor.name, at)?;
    }
    Ok(())
}

// The functions and variables of these declarations, behind those that were seen.
fn see_functions(
    alloc: Global,
    seen: &mut Names,
    places: &mut Vec<Place>,
    decls: &[Decl<Span>],
) -> Result<(), OutOfMemory>
    ensures { OnOk result (places.new.items ≡ places.old.items ++ repeated seen.old (flat_map functions_at (map (declaration itself) decls.now))) }
{
    for decl in decls {
        if let Decl::Fun(at, name, _) = decl {
            see(alloc, seen, places, name, *at)?;
        }
    }
    Ok(())
}

// The data types of these declarations, behind those that were seen.
fn see_types(
    alloc: Global,
    seen: &mut Names,
    places: &mut Vec<Place>,
    decls: &[Decl<Span>],
) -> Result<(), OutOfMemory>
    ensures { OnOk result (places.new.items ≡ places.old.items ++ repeated seen.old (flat_map types_at (map (declaration itself) decls.now))) }
{
    for decl in decls {
        if let Decl::Data(at, made) = decl {
            see(alloc, seen, places, &made.name, *at)?;
        }
    }
    Ok(())
}

// The constructors of these declarations, behind those that were seen.
fn see_all_constructors(
    alloc: Global,
    seen: &mut Names,
    places: &mut Vec<Place>,
    decls: &[Decl<Span>],
) -> Result<(), OutOfMemory>
    ensures { OnOk result (places.new.items ≡ places.old.items ++ repeated seen.old (flat_map constructors_at (map (declaration itself) decls.now))) }
{
    for decl in decls {
        if let Decl::Data(at, made) = decl {
            see_constructors(alloc, seen, places, made.constructors.as_slice(), *at)?;
        }
    }
    Ok(())
}

// The signatures of these declarations, behind those that were seen.
fn see_signatures(
    alloc: Global,
    seen: &mut Names,
    places: &mut Vec<Place>,
    decls: &[Decl<Span>],
) -> Result<(), OutOfMemory>
    ensures { OnOk result (places.new.items ≡ places.old.items ++ repeated seen.old (flat_map signatures_at (map (declaration itself) decls.now))) }
{
    for decl in decls {
        if let Decl::Sig(at, names, _) = decl {
            see_all(alloc, seen, places, names.as_slice(), *at)?;
        }
    }
    Ok(())
}

// The operators of the fixity declarations of these declarations, behind those that were seen.
fn see_fixities(
    alloc: Global,
    seen: &mut Names,
    places: &mut Vec<Place>,
    decls: &[Decl<Span>],
) -> Result<(), OutOfMemory>
    ensures { OnOk result (places.new.items ≡ places.old.items ++ repeated seen.old (flat_map fixities_at (map (declaration itself) decls.now))) }
{
    for decl in decls {
        if let Decl::Fixity(at, _, _, names) = decl {
            see_all(alloc, seen, places, names.as_slice(), *at)?;
        }
    }
    Ok(())
}

// The variables of the heads of these declarations.
fn see_heads(
    alloc: Global,
    places: &mut Vec<Place>,
    decls: &[Decl<Span>],
) -> Result<(), OutOfMemory>
    ensures { OnOk result (places.new.items ≡ places.old.items ++ flat_map repeated_in_head (map (declaration itself) decls.now)) }
{
    for decl in decls {
        if let Decl::Data(at, made) = decl {
            see_head(alloc, places, made, *at)?;
        }
    }
    Ok(())
}

/// The places at which these declarations, taken as a whole program's, declare a name again at top level or in the head of a
/// data type: variables behind the operations, types behind `I`, `ReT` and `StateT`, then constructors, signatures and
/// fixities. Each kind is in the order of the program.
pub fn repeated_at_top(alloc: Global, decls: &[Decl<Span>]) -> Result<Vec<Place>, OutOfMemory>
    ensures { IfOk result (λ places. places.items ≡ repeated_of (map (declaration itself) decls.now)) }
{
    let mut places = Vec::new(alloc);
    let mut variables = operations(alloc)?;
    see_functions(alloc, &mut variables, &mut places, decls)?;
    let mut types = taken_types(alloc)?;
    see_types(alloc, &mut types, &mut places, decls)?;
    let mut constructors = Names::new(alloc);
    see_all_constructors(alloc, &mut constructors, &mut places, decls)?;
    let mut signatures = Names::new(alloc);
    see_signatures(alloc, &mut signatures, &mut places, decls)?;
    let mut fixities = Names::new(alloc);
    see_fixities(alloc, &mut fixities, &mut places, decls)?;
    see_heads(alloc, &mut places, decls)?;
    Ok(places)
}
