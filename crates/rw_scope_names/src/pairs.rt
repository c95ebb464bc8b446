// E09: signatures and bindings pair, and the clauses of one name have one number of patterns (Haskell 2010 Report, sections
// 4.4.1 and 4.4.3.1).
ghost use Rattle.std.specs.Prelude.{◌≡◌, ◌++◌, IfOk, OnOk, flat_map, map};
ghost use Rattle.rw_tree.specs.Views.{itself};
ghost use Rattle.rw_tree.specs.Declarations.{declaration, plain_program};
ghost use Rattle.rw_scope_rules.specs.Scope.{alone, unpaired as unpaired_in};

use crate::gather::{put_functions, put_signatures};
use crate::names::Names;
use crate::places::push_if;
use crate::uneven::{see_at_top, see_inside};
use rw_base::{OutOfMemory, Place, Span};
use rw_tree::{Decl, Program};
use std::alloc::Global;

// A signature for a name that is no function's, or a function that has no signature.
fn see_alone(
    functions: &Names,
    signatures: &Names,
    places: &mut Vec<Place>,
    decl: &Decl<Span>,
) -> Result<(), OutOfMemory>
    ensures { OnOk result (places.new.items ≡ places.old.items ++ alone functions.now signatures.now (declaration itself decl.now)) }
{
    match decl {
        Decl::Sig(at, names, _) => { push_if(places, !functions.have(names.as_slice()), at.first) }
        Decl::Fun(at, name, _) => push_if(places, !signatures.has(name), at.first),
        _ => Ok(()),
    }
}

// Those of these declarations.
fn see_all_alone(
    functions: &Names,
    signatures: &Names,
    places: &mut Vec<Place>,
    decls: &[Decl<Span>],
) -> Result<(), OutOfMemory>
    ensures { OnOk result (places.new.items ≡ places.old.items ++ flat_map (alone functions.now signatures.now) (map (declaration itself) decls.now)) }
{
    for decl in decls {
        see_alone(functions, signatures, places, decl)?;
    }
    Ok(())
}

/// The places at which a program breaks E09: signatures with a name that no declaration binds, and functions and variables
/// without a signature, at top level; and clauses of another number of patterns than the first of their name, at top level
/// and then in let groups.
pub fn unpaired(alloc: Global, program: &Program<Span>) -> Result<Vec<Place>, OutOfMemory>
    ensures { IfOk result (λ places. places.items ≡ unpaired_in (plain_program itself program.now)) }
{
    let decls = program.decls.as_slice();
    let mut functions = Names::new(alloc);
    put_functions(alloc, &mut functions, decls)?;
    let mut signatures = Names::new(alloc);
    put_signatures(alloc, &mut signatures, decls)?;
    let mut places = Vec::new(alloc);
    see_all_alone(&functions, &signatures, &mut places, decls)?;
    see_at_top(&mut places, decls)?;
    see_inside(alloc, &mut places, program)?;
    Ok(places)
}
