// The most general typing of a declaration.
ghost use Rattle.std.specs.Prelude.{◌≡◌, ℕ, IfOk, Err, length};
ghost use Rattle.rw_types_solving.specs.Types.{Ty, Agrees, meaning};
ghost use Rattle.rw_types_solving.specs.Tables.{Small};
ghost use Rattle.rw_tree.specs.Declarations.{declaration};
ghost use Rattle.rw_types_rules.specs.WellTyped.{DeclarationAgrees};
ghost use Rattle.rw_types_equations.specs.Numbered.{typed_by};
ghost use Rattle.rw_types_equations.specs.Seen.{seen_world};
ghost use Rattle.rw_base.specs.declared.fail.Failure.TheVariants as fail;

use crate::declaration::add_declaration;
use crate::solve::solve_equations;
use crate::{Equation, Numbered, World};
use rw_tree::Decl;
use rw_types_solving::{Term, Unsolved};
use sqlite_items::Items;
use std::alloc::Global;

/// The types of the numbers of a declaration, so many of them, in the most general way: the types of the declaration agree, and
/// every assignment under which they do is an instance of this one. Refused only where they agree under no assignment of
/// types of at most 1,024 nodes. A number that is none of them counts as want of memory.
pub fn most_general_types(
    alloc: Global,
    tree: &Decl<Numbered>,
    world: &World,
    numbers: u32,
) -> Result<Items<Term>, Unsolved>
    ensures as_many { IfOk result (λ made. length made ≡ numbers) }
    ensures agrees { IfOk result (λ made. DeclarationAgrees (seen_world world.now) (declaration (typed_by (meaning made)) tree.now)) }
    ensures general { IfOk result (λ made. (t : ℕ → Ty) → DeclarationAgrees (seen_world world.now) (declaration (typed_by t) tree.now) → Agrees t (meaning made)) }
    ensures small { IfOk result (λ made. Small numbers (meaning made)) }
    ensures refused { result ≡ Err (fail.Refused (record {})) → (t : ℕ → Ty) → DeclarationAgrees (seen_world world.now) (declaration (typed_by t) tree.now) → Small numbers t → ⊥ }
{
    let mut equations: Items<Equation> = Items::new(alloc);
    add_declaration(alloc, tree, world, &mut equations)?;
    let table = solve_equations(alloc, equations.as_slice(), numbers)?;
    let types = table.most_general(alloc)?;
    Ok(types)
}
