// Items: the declarations of a program, of which each clause of a function is one, with their chains grouped.
ghost use Rattle.std.specs.Prelude.{◌≡◌, ◌≤◌, ◌+◌, List, map, ◌∷◌};
ghost use Rattle.rw_base.specs.declared.place.Place.{Place};
ghost use Rattle.rw_tree.specs.Trees.{alternative_of};
ghost use Rattle.rw_tree.specs.declared.clause.Alt.{out-Alt};
ghost use Rattle.rw_tree.specs.declared.decl.Decl.{Decl};
ghost use Rattle.rw_parser_grammar.specs.Levels.{max_levels, alternative_levels, rows_levels};
ghost use Rattle.rw_parser_grammar.specs.Resolved.{IsRowResolved, AreRowsResolved};
ghost use Rattle.rw_parser_grammar.specs.Resolution.{IsDeclarationResolved, IsShallow, AreDeclarationsResolved, IsRowBroken, FirstRowBroken, FirstDeclarationBroken};
ghost use Rattle.rw_parser_chains.specs.Fixities.{strength_at};
ghost use Rattle.rw_parser_fixity.specs.Found.{Finds};
ghost use Rattle.rw_base.specs.declared.fail.Failure.TheVariants as fail;
ghost use Rattle.rw_base.specs.declared.rule.Rule.TheVariants as rule;

use crate::clause::clause;
use rw_base::{Fail, Place, Refusal, Rule, Span};
use rw_parser_chains::{Fixities, MAX_LEVELS, Unresolved, data_levels, type_levels};
use rw_tree::{Alt, Decl};
use rw_tree_copies::{copied_data, copied_names, copied_type};
use sqlite_items::Items;
use std::alloc::Global;

// No tree stands here.
fn refused(place: Place) -> Fail
    ensures { result ≡ fail.Refused (record { rule = rule.E05; place = place }) }
{
    Fail::Refused(Refusal {
        rule: Rule::E05,
        place,
    })
}

// A clause, which has its function above it.
fn clause_item(alloc: Global, fixities: &Fixities, row: &Alt<Span>) -> Result<Alt<Span>, Fail>
    ensures { Finds (λ made. IsRowResolved (strength_at fixities.now) row.now made × (alternative_levels (alternative_of (λ span. span) made) + 1 ≤ max_levels)) (λ at. IsRowBroken (strength_at fixities.now) row.now × (at ≡ (out-Alt _ row.now).at.first)) result }
{
    match clause(alloc, fixities, row) {
        Ok((made, levels)) => {
            if levels < MAX_LEVELS {
                Ok(made)
            } else {
                Err(refused(row.at.first))
            }
        }
        Err(Unresolved::Refused(_)) => Err(refused(row.at.first)),
        Err(Unresolved::OutOfMemory) => Err(Fail::OutOfMemory),
    }
}

// The clauses of a function.
fn clause_items(
    alloc: Global,
    fixities: &Fixities,
    rows: &[Alt<Span>],
) -> Result<Items<Alt<Span>>, Fail>
    ensures { Finds (λ made. AreRowsResolved (strength_at fixities.now) rows.now made × (rows_levels (map (alternative_of (λ span. span)) made) + 1 ≤ max_levels)) (FirstRowBroken (strength_at fixities.now) rows.now) result }
{
    let mut made = Items::new(alloc);
    for row in rows {
        made.push(clause_item(alloc, fixities, row)?)?;
    }
    Ok(made)
}

// A declaration of these levels, which has no chains.
fn whole(at: Span, levels: usize, decl: Decl<Span>) -> Result<Decl<Span>, Fail>
    ensures { Finds (λ made. (made ≡ decl) × (levels + 1 ≤ max_levels)) (λ place. (place ≡ at.first) × (max_levels ≤ levels)) result }
{
    if levels < MAX_LEVELS {
        Ok(decl)
    } else {
        Err(refused(at.first))
    }
}

// A declaration.
fn item(alloc: Global, fixities: &Fixities, decl: &Decl<Span>) -> Result<Decl<Span>, Fail>
    ensures { Finds (λ made. IsDeclarationResolved (strength_at fixities.now) decl.now made × IsShallow made) (λ at. (others : List (Decl _)) → FirstDeclarationBroken (strength_at fixities.now) (decl.now ∷ others) at) result }
{
    match decl {
        Decl::Import(at, name) => whole(*at, 0, Decl::Import(*at, name.copied(alloc)?)),
        Decl::Data(at, made) => {
            let copy = copied_data(alloc, made)?;
            whole(*at, data_levels(made), Decl::Data(*at, copy))
        }
        Decl::Fixity(at, side, strength, names) => {
            let names = copied_names(alloc, names.as_slice())?;
            whole(*at, 0, Decl::Fixity(*at, *side, *strength, names))
        }
        Decl::Sig(at, names, written) => {
            let names = copied_names(alloc, names.as_slice())?;
            let copy = copied_type(alloc, written)?;
            whole(*at, type_levels(written), Decl::Sig(*at, names, copy))
        }
        Decl::Fun(at, name, rows) => {
            let rows = clause_items(alloc, fixities, rows.as_slice())?;
            Ok(Decl::Fun(*at, name.copied(alloc)?, rows))
        }
    }
}

/// The declarations of a program.
pub fn items(
    alloc: Global,
    fixities: &Fixities,
    decls: &[Decl<Span>],
) -> Result<Items<Decl<Span>>, Fail>
    ensures { Finds (AreDeclarationsResolved (strength_at fixities.now) decls.now) (FirstDeclarationBroken (strength_at fixities.now) decls.now) result }
{
    let mut made = Items::new(alloc);
    for decl in decls {
        made.push(item(alloc, fixities, decl)?)?;
    }
    Ok(made)
}
