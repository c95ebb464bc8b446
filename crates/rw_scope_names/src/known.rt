// The names that the rules on names look for: types, and operators of fixity declarations.
ghost use Rattle.std.specs.Prelude.{◌≡◌, IfOk, map};
ghost use Rattle.rw_tree.specs.Views.{itself};
ghost use Rattle.rw_tree.specs.Declarations.{declaration};
ghost use Rattle.rw_scope_rules.specs.Names.{Bytes, is_among};
ghost use Rattle.rw_scope_rules.specs.Scope.{operator_names, type_names};

use crate::gather::{put_constructors, put_functions, put_types};
use crate::names::Names;
use crate::taken::{operations, taken_types};
use rw_base::{OutOfMemory, Span};
use rw_tree::Decl;
use std::alloc::Global;

// The names of types.
pub fn known_types(alloc: Global, decls: &[Decl<Span>]) -> Result<Names, OutOfMemory>
    ensures { IfOk result (λ names. (x : Bytes) → is_among x names ≡ is_among x (type_names (map (declaration itself) decls.now))) }
{
    let mut names = taken_types(alloc)?;
    put_types(alloc, &mut names, decls)?;
    Ok(names)
}

// The names that an operator of a fixity declaration may be.
pub fn known_operators(alloc: Global, decls: &[Decl<Span>]) -> Result<Names, OutOfMemory>
    ensures { IfOk result (λ names. (x : Bytes) → is_among x names ≡ is_among x (operator_names (map (declaration itself) decls.now))) }
{
    let mut names = operations(alloc)?;
    put_functions(alloc, &mut names, decls)?;
    put_constructors(alloc, &mut names, decls)?;
    Ok(names)
}
