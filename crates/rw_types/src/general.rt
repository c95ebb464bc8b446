// The most general types of the numbers of a declaration.
ghost use Rattle.std.specs.Prelude.{◌≡◌, ℕ, IfOk, IsTrue, Err, length};
ghost use Rattle.rw_types_solving.specs.Types.{Ty, Agrees, meaning};
ghost use Rattle.rw_types_solving.specs.Tables.{Small};
ghost use Rattle.rw_tree.specs.Declarations.{declaration};
ghost use Rattle.rw_types_rules.specs.WellTyped.{DeclarationAgrees};
ghost use Rattle.rw_types_equations.specs.Numbered.{typed_by};
ghost use Rattle.rw_types_equations.specs.Seen.{seen_world};
ghost use Rattle.rw_types.specs.Inside.{AreWithin};
ghost use Rattle.rw_base.specs.declared.fail.Failure.TheVariants as fail;

use rw_tree::Decl;
use rw_types_equations::{Numbered, World, most_general_types};
use rw_types_solving::{Term, Unsolved, top};
use sqlite_items::Items;
use std::alloc::Global;

// Whether each variable of the types is one of so many.
fn are_within(types: &[Term], numbers: u32) -> bool
    ensures { IsTrue result → AreWithin numbers types.now }
{
    for term in types {
        if top(term) > numbers as u64 {
            return false;
        }
    }
    true
}

// The most general types of so many numbers. Numbers have 32 bits: more are want of memory, and so is a variable that is
// none of them, of which the solver makes none.
pub fn general_types(
    alloc: Global,
    tree: &Decl<Numbered>,
    world: &World,
    numbers: usize,
) -> Result<Items<Term>, Unsolved>
    ensures as_many { IfOk result (λ made. length made ≡ numbers) }
    ensures agrees { IfOk result (λ made. DeclarationAgrees (seen_world world.now) (declaration (typed_by (meaning made)) tree.now)) }
    ensures general { IfOk result (λ made. (t : ℕ → Ty) → DeclarationAgrees (seen_world world.now) (declaration (typed_by t) tree.now) → Agrees t (meaning made)) }
    ensures small { IfOk result (λ made. Small numbers (meaning made)) }
    ensures within { IfOk result (λ made. AreWithin numbers made) }
    ensures refused { result ≡ Err (fail.Refused (record {})) → (t : ℕ → Ty) → DeclarationAgrees (seen_world world.now) (declaration (typed_by t) tree.now) → Small numbers t → ⊥ }
{
    if numbers > u32::MAX as usize {
        return Err(Unsolved::OutOfMemory);
    }
    let numbers = numbers as u32;
    let types = most_general_types(alloc, tree, world, numbers)?;
    if !are_within(types.as_slice(), numbers) {
        return Err(Unsolved::OutOfMemory);
    }
    Ok(types)
}
