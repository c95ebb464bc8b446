// The default typing of a declaration.
ghost use Rattle.std.specs.Prelude.{◌≡◌, IfOk, Err};
ghost use Rattle.rw_tree.specs.Views.{itself};
ghost use Rattle.rw_tree.specs.Declarations.{declaration};
ghost use Rattle.rw_types_rules.specs.Typings.{IsTypable, IsDefault};
ghost use Rattle.rw_types_equations.specs.Seen.{seen_world};
ghost use Rattle.rw_types.specs.Inferred.{seen, HasSharedTypes};
ghost use Rattle.rw_base.specs.declared.fail.Failure.TheVariants as fail;

use crate::TypedDecl;
use crate::own::kinds_at;
use crate::place::label;
use crate::solved::default_types;
use rw_scope_rules::Bound;
use rw_tree::Decl;
use rw_types_equations::World;
use rw_types_numbering::{
    assignment_law, erased_law, instance_law, number_declaration, seen_law, typing_law,
};
use rw_types_solving::Unsolved;
use std::alloc::Global;

/// The default typing of a declaration of a program whose names are of these types: the most general one, with leftover
/// variables closed, `()` for a type, `I` for a monad and `StateT ()` for a layer (Haskell 2010 Report, sections 4.1.4, 4.4 and
/// 4.5.4, with one type for each local name).
///
/// Refused only where it has no typing of types of at most 1,024 nodes. A declaration with 2^32 numbers counts as want of memory.
pub fn infer_declaration(
    alloc: Global,
    decl: &Decl<Bound>,
    world: &World,
) -> Result<TypedDecl, Unsolved>
    // Ok: the default typing.
    ensures default { IfOk result (λ made. IsDefault (seen_world world.now) (declaration itself decl.now) (seen made)) }
    // Each type stands once.
    ensures shared { IfOk result (λ made. HasSharedTypes made) }
    // Refused: there is no typing.
    ensures refused { result ≡ Err (fail.Refused (record {})) → IsTypable (seen_world world.now) (declaration itself decl.now) → ⊥ }
{
    erased_law();
    assignment_law();
    typing_law();
    instance_law();
    seen_law();
    let own = kinds_at(alloc, label(decl).bound, world)?;
    let (tree, slots) = number_declaration(alloc, decl, world)?;
    let (nodes, types) = default_types(alloc, &tree, world, slots.as_slice(), own.as_slice())?;
    Ok(TypedDecl { tree, nodes, types })
}
