// The world of a program.
ghost use Rattle.std.specs.Prelude.{◌≡◌, IfOk, map};
ghost use Rattle.rw_tree.specs.Declarations.{declaration};
ghost use Rattle.rw_types_rules.specs.Schemes.{declared_scheme as scheme_of_declared, constructed_from, world_of};
ghost use Rattle.rw_types_equations.specs.Seen.{seen_scheme, seen_option, seen_types, seen_world};
ghost use Rattle.rw_types_world.specs.Known.{IsOf};

use crate::made::{constructor_schemes, data_types, number_of};
use crate::signature::{Known, declared_scheme};
use crate::signed::signatures_of;
use rw_base::OutOfMemory;
use rw_scope_rules::Bound;
use rw_scope_uses::of_signatures;
use rw_tree::Decl;
use rw_types_equations::{DataName, Scheme, World};
use sqlite_items::Items;
use std::alloc::Global;

// The types of the functions that these declarations declare.
fn declared_schemes(
    alloc: Global,
    known: &Known<'_, '_>,
    decls: &[Decl<Bound>],
) -> Result<Items<Option<Scheme>>, OutOfMemory>
    requires { IsOf (map (declaration (λ a. a.span)) decls.now) known.now }
    ensures { IfOk result (λ all. map seen_option all ≡ map (scheme_of_declared (map (declaration (λ a. a.span)) decls.now)) (map (declaration (λ a. a.span)) decls.now)) }
{
    let mut all = Items::new(alloc);
    for decl in decls {
        all.push(declared_scheme(alloc, known, decl)?)?;
    }
    Ok(all)
}

// The types of the constructors that these declarations declare.
fn constructed_schemes(
    alloc: Global,
    decls: &[Decl<Bound>],
    types: &[DataName],
) -> Result<Items<Items<Scheme>>, OutOfMemory>
    ensures { IfOk result (λ all. map (map seen_scheme) all ≡ constructed_from (seen_types types.now) 0 (map (declaration (λ a. a.span)) decls.now)) }
{
    let mut all = Items::new(alloc);
    for (i, decl) in decls.iter().enumerate() {
        all.push(constructor_schemes(alloc, types, number_of(i)?, decl)?)?;
    }
    Ok(all)
}

/// The data types of a program with these declarations, and the types of its functions and constructors, by the numbers of
/// the declarations. A function has the type of the first signature of its name (Haskell 2010 Report, section 4.4.1), and a
/// constructor takes its fields and gives its data type (section 4.2.1). Nothing is refused: what has no signature has no
/// type. A program of more declarations than 32 bits count is want of memory.
pub fn world(alloc: Global, decls: &[Decl<Bound>]) -> Result<World, OutOfMemory>
    ensures { IfOk result (λ made. seen_world made ≡ world_of (map (declaration (λ a. a.span)) decls.now)) }
{
    let context = of_signatures(alloc, decls)?;
    let types = data_types(alloc, decls)?;
    let signatures = signatures_of(alloc, decls)?;
    let known = Known {
        context: &context,
        types: types.as_slice(),
        signatures: &signatures,
    };
    let declared = declared_schemes(alloc, &known, decls)?;
    let constructed = constructed_schemes(alloc, decls, types.as_slice())?;
    Ok(World {
        types,
        declared,
        constructed,
    })
}
