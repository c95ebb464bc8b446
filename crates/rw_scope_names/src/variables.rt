// E07, the variables of patterns and of let groups: those that were seen before (Haskell 2010 Report, sections 3.17.1 and
// 4.4.3).
ghost use Rattle.std.specs.Prelude.{◌≡◌, ◌++◌, [], List, OnOk, map};
ghost use Rattle.rw_base.specs.declared.place.Span.{Span as PlainSpan};
ghost use Rattle.rw_tree.specs.Views.{itself};
ghost use Rattle.rw_tree.specs.Patterns.{pattern, pattern_parts, patterns};
ghost use Rattle.rw_tree.specs.Trees.{binding_parts, local_binding};
ghost use Rattle.rw_scope_rules.specs.Names.{Bytes, repeated};
ghost use Rattle.rw_scope_rules.specs.Bindings.{binding_variables, group_variables, parts_variables, pattern_variables, row_variables};
ghost use Rattle.rw_scope_rules.specs.Scope.{group_signatures};
ghost use Rattle.rw_scope_names.specs.Signatures.{signature_of};

use crate::names::Names;
use crate::repeated::see;
use rw_base::{OutOfMemory, Place, Span};
use rw_tree::{Local, Pat};
use std::alloc::Global;

// The variables of a pattern, behind names that were seen.
#[cycle(patterns)]
fn see_pattern(
    alloc: Global,
    seen: &mut Names,
    places: &mut Vec<Place>,
    pat: &Pat<Span>,
) -> Result<(), OutOfMemory>
    ensures { OnOk result ((rest : List (Bytes × PlainSpan)) → places.new.items ++ repeated seen.new rest ≡ places.old.items ++ repeated seen.old (pattern_variables (pattern itself pat.now) ++ rest)) }
{
    match pat {
        Pat::Wild(_) => Ok(()),
        Pat::Var(at, name) => see(alloc, seen, places, name, *at),
        Pat::Con(_, _, parts) => see_row(alloc, seen, places, parts.as_slice()),
        Pat::Tuple(_, parts) => see_row(alloc, seen, places, parts.as_slice()),
    }
}

// Those of several patterns, or of the parts of one.
#[cycle(patterns)]
fn see_row(
    alloc: Global,
    seen: &mut Names,
    places: &mut Vec<Place>,
    pats: &[Pat<Span>],
) -> Result<(), OutOfMemory>
    ensures row { OnOk result ((rest : List (Bytes × PlainSpan)) → places.new.items ++ repeated seen.new rest ≡ places.old.items ++ repeated seen.old (row_variables (patterns itself pats.now) ++ rest)) }
    ensures parts { OnOk result ((rest : List (Bytes × PlainSpan)) → places.new.items ++ repeated seen.new rest ≡ places.old.items ++ repeated seen.old (parts_variables (pattern_parts (patterns itself pats.now)) ++ rest)) }
{
    for pat in pats {
        see_pattern(alloc, seen, places, pat)?;
    }
    Ok(())
}

// What a local declaration binds, behind names that were seen. A signature binds nothing.
fn see_binding(
    alloc: Global,
    seen: &mut Names,
    places: &mut Vec<Place>,
    local: &Local<Span>,
) -> Result<(), OutOfMemory>
    ensures { OnOk result ((rest : List (Bytes × PlainSpan)) → places.new.items ++ repeated seen.new rest ≡ places.old.items ++ repeated seen.old (binding_variables (local_binding itself local.now) ++ rest)) }
{
    match local {
        Local::Sig(_, _, _) => Ok(()),
        Local::Fun(at, name, _) => see(alloc, seen, places, name, *at),
        Local::Pattern(_, bound) => see_row(alloc, seen, places, bound.pats.as_slice()),
    }
}

// The name of a local signature, behind names that were seen.
fn see_signature(
    alloc: Global,
    seen: &mut Names,
    places: &mut Vec<Place>,
    local: &Local<Span>,
) -> Result<(), OutOfMemory>
    ensures { OnOk result ((rest : List (Bytes × PlainSpan)) → places.new.items ++ repeated seen.new rest ≡ places.old.items ++ repeated seen.old (signature_of (local_binding itself local.now) ++ rest)) }
{
    match local {
        Local::Sig(at, name, _) => see(alloc, seen, places, name, *at),
        _ => Ok(()),
    }
}

// The variables of one pattern alone.
pub fn see_one_pattern(
    alloc: Global,
    places: &mut Vec<Place>,
    pat: &Pat<Span>,
) -> Result<(), OutOfMemory>
    ensures { OnOk result (places.new.items ≡ places.old.items ++ repeated [] (pattern_variables (pattern itself pat.now))) }
{
    let mut seen = Names::new(alloc);
    see_pattern(alloc, &mut seen, places, pat)
}

// The variables of the patterns of one clause, alternative or lambda.
pub fn see_one_row(
    alloc: Global,
    places: &mut Vec<Place>,
    pats: &[Pat<Span>],
) -> Result<(), OutOfMemory>
    ensures { OnOk result (places.new.items ≡ places.old.items ++ repeated [] (row_variables (patterns itself pats.now))) }
{
    let mut seen = Names::new(alloc);
    see_row(alloc, &mut seen, places, pats)
}

// The names that one let group binds.
pub fn see_bindings(
    alloc: Global,
    places: &mut Vec<Place>,
    locals: &[Local<Span>],
) -> Result<(), OutOfMemory>
    ensures { OnOk result (places.new.items ≡ places.old.items ++ repeated [] (group_variables (binding_parts (map (local_binding itself) locals.now)))) }
{
    let mut seen = Names::new(alloc);
    for local in locals {
        see_binding(alloc, &mut seen, places, local)?;
    }
    Ok(())
}

// The signatures of one let group.
pub fn see_signatures(
    alloc: Global,
    places: &mut Vec<Place>,
    locals: &[Local<Span>],
) -> Result<(), OutOfMemory>
    ensures { OnOk result (places.new.items ≡ places.old.items ++ repeated [] (group_signatures (binding_parts (map (local_binding itself) locals.now)))) }
{
    let mut seen = Names::new(alloc);
    for local in locals {
        see_signature(alloc, &mut seen, places, local)?;
    }
    Ok(())
}
