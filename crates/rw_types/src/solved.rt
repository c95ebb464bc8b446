// The default types of the numbers of a declaration.
ghost use Rattle.std.specs.Prelude.{◌≡◌, IfOk, Err, length};
ghost use Rattle.rw_types_equations.specs.Seen.{seen_world};
ghost use Rattle.rw_types_shared.specs.Shared.{AreBelow, IsProper};
ghost use Rattle.rw_types.specs.Inferred.{type_of};
ghost use Rattle.rw_types.specs.Inside.{IsSolved, HasNoSolution};
ghost use Rattle.rw_base.specs.declared.fail.Failure.TheVariants as fail;

use crate::carried::are_carried;
use crate::general::general_types;
use crate::kinds::sorts_of;
use rw_tree::Decl;
use rw_types_equations::{Numbered, World};
use rw_types_rules::VariableKind;
use rw_types_shared::{Types, share_all};
use rw_types_solving::{NoSolution, Unsolved};
use sqlite_items::Items;
use std::alloc::Global;

// The types of the numbers of a declaration, which are of these kinds, in the most general way, with leftover variables
// closed: a table of types, each of which stands once, and the place in it of each number. Refused only where no types of
// these kinds agree.
pub fn default_types(
    alloc: Global,
    tree: &Decl<Numbered>,
    world: &World,
    slots: &[VariableKind],
    own: &[VariableKind],
) -> Result<(Types, Items<u32>), Unsolved>
    ensures solved { IfOk result (λ made. IsSolved (seen_world world.now) tree.now slots.now own.now (type_of made.0 made.1)) }
    ensures proper { IfOk result (λ made. IsProper made.0) }
    ensures within { IfOk result (λ made. AreBelow (length made.0) made.1) }
    ensures refused { result ≡ Err (fail.Refused (record {})) → HasNoSolution (seen_world world.now) tree.now slots.now own.now }
{
    let types = general_types(alloc, tree, world, slots.len())?;
    if !are_carried(alloc, types.as_slice(), slots, own, world)? {
        return Err(Unsolved::Refused(NoSolution));
    }
    let sorts = sorts_of(alloc, slots)?;
    let mut nodes = Types::new(alloc);
    let numbers = share_all(alloc, &mut nodes, types.as_slice(), sorts.as_slice())?;
    Ok((nodes, Items::from_vec(numbers)))
}
