// Patterns: numbered.
ghost use Rattle.std.specs.Prelude.{◌≡◌, ◌++◌, length, IfOk, OnOk};
ghost use Rattle.rw_tree.specs.Views.{itself};
ghost use Rattle.rw_tree.specs.Patterns.{pattern, pattern_parts, patterns};
ghost use Rattle.rw_types_equations.specs.Seen.{seen_world};
ghost use Rattle.rw_types_numbering.specs.Slots.{parts_slots, pattern_slots, row_slots};
ghost use Rattle.rw_types_numbering.specs.Numbering.{numbered_parts, numbered_pattern, numbered_row};

use crate::label::{name_label, plain_label};
use rw_base::OutOfMemory;
use rw_scope_rules::Bound;
use rw_tree::Pat;
use rw_types_equations::{Numbered, World};
use rw_types_rules::VariableKind;
use sqlite_items::Items;
use std::alloc::Global;

// A pattern.
#[cycle(patterns)]
pub fn number_pattern(
    alloc: Global,
    world: &World,
    tree: &Pat<Bound>,
    kinds: &mut Items<VariableKind>,
) -> Result<Pat<Numbered>, OutOfMemory>
    ensures tree { IfOk result (λ made. pattern itself made ≡ numbered_pattern (seen_world world.now) (length kinds.old) (pattern itself tree.now)) }
    ensures kinds { OnOk result (kinds.new ≡ kinds.old ++ pattern_slots (seen_world world.now) (pattern itself tree.now)) }
{
    match tree {
        Pat::Wild(at) => {
            let at = plain_label(*at, kinds)?;
            Ok(Pat::Wild(at))
        }
        Pat::Var(at, name) => {
            let at = plain_label(*at, kinds)?;
            Ok(Pat::Var(at, name.copied(alloc)?))
        }
        Pat::Con(at, name, parts) => {
            let at = name_label(alloc, world, *at, kinds)?;
            let name = name.copied(alloc)?;
            let parts = number_row(alloc, world, parts.as_slice(), kinds)?;
            Ok(Pat::Con(at, name, parts))
        }
        Pat::Tuple(at, parts) => {
            let at = plain_label(*at, kinds)?;
            let parts = number_row(alloc, world, parts.as_slice(), kinds)?;
            Ok(Pat::Tuple(at, parts))
        }
    }
}

// The patterns of one clause, or the parts of one pattern, in order.
#[cycle(patterns)]
pub fn number_row(
    alloc: Global,
    world: &World,
    trees: &[Pat<Bound>],
    kinds: &mut Items<VariableKind>,
) -> Result<Items<Pat<Numbered>>, OutOfMemory>
    ensures trees { IfOk result (λ made. patterns itself made ≡ numbered_row (seen_world world.now) (length kinds.old) (patterns itself trees.now)) }
    ensures parts { IfOk result (λ made. pattern_parts (patterns itself made) ≡ numbered_parts (seen_world world.now) (length kinds.old) (pattern_parts (patterns itself trees.now))) }
    ensures kinds { OnOk result (kinds.new ≡ kinds.old ++ row_slots (seen_world world.now) (patterns itself trees.now)) }
    ensures parts_kinds { OnOk result (kinds.new ≡ kinds.old ++ parts_slots (seen_world world.now) (pattern_parts (patterns itself trees.now))) }
{
    let mut made = Items::new(alloc);
    for tree in trees {
        made.push(number_pattern(alloc, world, tree, kinds)?)?;
    }
    Ok(made)
}
