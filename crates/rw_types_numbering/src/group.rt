// Let groups: numbered.
ghost use Rattle.std.specs.Prelude.{◌≡◌, ◌++◌, length, map, IfOk, OnOk};
ghost use Rattle.rw_tree.specs.Views.{itself};
ghost use Rattle.rw_tree.specs.Trees.{binding_parts, local_binding};
ghost use Rattle.rw_types_equations.specs.Seen.{seen_world};
ghost use Rattle.rw_types_numbering.specs.Slots.{binding_slots, group_slots};
ghost use Rattle.rw_types_numbering.specs.Numbering.{numbered_binding, numbered_group};

use crate::clause::{number_clause, number_clauses};
use crate::label::plain_label;
use rw_base::OutOfMemory;
use rw_scope_rules::Bound;
use rw_tree::Local;
use rw_tree_copies::copied_type;
use rw_types_equations::{Numbered, World};
use rw_types_rules::VariableKind;
use sqlite_items::Items;
use std::alloc::Global;

// A binding of a group.
#[cycle(numbering)]
fn number_local(
    alloc: Global,
    world: &World,
    tree: &Local<Bound>,
    kinds: &mut Items<VariableKind>,
) -> Result<Local<Numbered>, OutOfMemory>
    ensures tree { IfOk result (λ made. local_binding itself made ≡ numbered_binding (seen_world world.now) (length kinds.old) (local_binding itself tree.now)) }
    ensures kinds { OnOk result (kinds.new ≡ kinds.old ++ binding_slots (seen_world world.now) (local_binding itself tree.now)) }
{
    match tree {
        Local::Sig(at, name, written) => {
            let at = plain_label(*at, kinds)?;
            let name = name.copied(alloc)?;
            Ok(Local::Sig(at, name, copied_type(alloc, written)?))
        }
        Local::Fun(at, name, clauses) => {
            let at = plain_label(*at, kinds)?;
            let name = name.copied(alloc)?;
            let clauses = number_clauses(alloc, world, clauses.as_slice(), kinds)?;
            Ok(Local::Fun(at, name, clauses))
        }
        Local::Pattern(at, clause) => {
            let at = plain_label(*at, kinds)?;
            let clause = number_clause(alloc, world, clause, kinds)?;
            Ok(Local::Pattern(at, clause))
        }
    }
}

// A group.
#[cycle(numbering)]
pub fn number_group(
    alloc: Global,
    world: &World,
    trees: &[Local<Bound>],
    kinds: &mut Items<VariableKind>,
) -> Result<Items<Local<Numbered>>, OutOfMemory>
    ensures trees { IfOk result (λ made. binding_parts (map (local_binding itself) made) ≡ numbered_group (seen_world world.now) (length kinds.old) (binding_parts (map (local_binding itself) trees.now))) }
    ensures kinds { OnOk result (kinds.new ≡ kinds.old ++ group_slots (seen_world world.now) (binding_parts (map (local_binding itself) trees.now))) }
{
    let mut made = Items::new(alloc);
    for tree in trees {
        made.push(number_local(alloc, world, tree, kinds)?)?;
    }
    Ok(made)
}
