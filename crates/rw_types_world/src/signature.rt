// The types of declared functions, by their signatures.
ghost use Rattle.std.specs.Prelude.{◌≡◌, List, IfOk};
ghost use Rattle.rw_base.specs.declared.place.Span.{Span};
ghost use Rattle.rw_tree.specs.Types.{written};
ghost use Rattle.rw_tree.specs.Declarations.{Declaration, declaration};
ghost use Rattle.rw_types_rules.specs.Schemes.{signature_scheme as scheme_of_signature, declared_scheme as scheme_of_declared};
ghost use Rattle.rw_types_equations.specs.Seen.{seen_scheme, seen_option};
ghost use Rattle.rw_types_world.specs.Known.{IsOf};

use crate::kinds::variable_kinds;
use crate::signed::{Signed, signature_of};
use crate::variables::signature_variables;
use rw_base::OutOfMemory;
use rw_scope_rules::Bound;
use rw_scope_uses::{Context, Table};
use rw_tree::{Decl, Written};
use rw_types_equations::{DataName, Scheme, written_type};
use sqlite_items::Items;
use std::alloc::Global;

// What a program knows: what constructors of types take in a signature, its data types, and its signatures.
#[derive(Clone, Copy)]
pub struct Known<'k, 'a> {
    pub context: &'k Context,
    pub types: &'k [DataName],
    pub signatures: &'k Table<Signed<'a>>,
}

// The type of a signature.
fn signature_scheme(
    alloc: Global,
    known: &Known<'_, '_>,
    ty: &Written,
) -> Result<Scheme, OutOfMemory>
    ensures { (decls : List (Declaration Span)) → IsOf decls known.now → IfOk result (λ made. seen_scheme made ≡ scheme_of_signature decls (written ty.now)) }
{
    let variables = signature_variables(alloc, ty)?;
    let kinds = variable_kinds(alloc, known.context, ty, variables.as_slice())?;
    let gives = written_type(alloc, ty, known.types, variables.as_slice())?;
    Ok(Scheme {
        kinds,
        takes: Items::new(alloc),
        gives,
    })
}

// The type of the function that a declaration declares, if it is one that has a signature.
pub fn declared_scheme(
    alloc: Global,
    known: &Known<'_, '_>,
    decl: &Decl<Bound>,
) -> Result<Option<Scheme>, OutOfMemory>
    ensures { (decls : List (Declaration Span)) → IsOf decls known.now → IfOk result (λ made. seen_option made ≡ scheme_of_declared decls (declaration (λ a. a.span) decl.now)) }
{
    match decl {
        Decl::Fun(_, name, _) => match signature_of(known.signatures, name) {
            Some(ty) => Ok(Some(signature_scheme(alloc, known, ty)?)),
            None => Ok(None),
        },
        _ => Ok(None),
    }
}
