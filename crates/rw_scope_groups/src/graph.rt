// The graph of a group: each binding waits for the bindings that bind a name that stands in it, perhaps for itself.
ghost use Rattle.std.specs.Prelude.{◌≡◌, IfOk, map, flat_map};
ghost use Rattle.rw_tree.specs.Views.{itself};
ghost use Rattle.rw_tree.specs.Trees.{local_binding};
ghost use Rattle.rw_scope_rules.specs.Groups.{mentioned_numbers};
ghost use Rattle.rw_scope_groups.specs.Rows.{found_in, group_graph};

use crate::numbers::mentioned;
use crate::owners::{Owners, owners_in};
use rw_base::OutOfMemory;
use rw_scope_rules::Bound;
use rw_tree::Local;
use sqlite_items::Items;
use std::alloc::Global;

// What a binding waits for.
fn row(alloc: Global, table: &Owners, binding: &Local<Bound>) -> Result<Items<u32>, OutOfMemory>
    ensures { IfOk result (λ row. row ≡ flat_map (found_in table.now) (mentioned_numbers (local_binding itself binding.now))) }
{
    let wants = mentioned(alloc, binding)?;
    let mut row = Items::new(alloc);
    for wanted in wants.as_slice() {
        table.add_places(*wanted, &mut row)?;
    }
    Ok(row)
}

// What each binding waits for.
fn rows(
    alloc: Global,
    table: &Owners,
    bindings: &[Local<Bound>],
) -> Result<Items<Items<u32>>, OutOfMemory>
    ensures { IfOk result (λ rows. rows ≡ map (λ b. flat_map (found_in table.now) (mentioned_numbers b)) (map (local_binding itself) bindings.now)) }
{
    let mut rows = Items::new(alloc);
    for binding in bindings {
        rows.push(row(alloc, table, binding)?)?;
    }
    Ok(rows)
}

// The graph of a group.
pub fn waiting(alloc: Global, bindings: &[Local<Bound>]) -> Result<Items<Items<u32>>, OutOfMemory>
    ensures { IfOk result (λ graph. graph ≡ group_graph (map (local_binding itself) bindings.now)) }
{
    let table = owners_in(alloc, bindings)?;
    rows(alloc, &table, bindings)
}
