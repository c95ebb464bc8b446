// Seeing types: a search in depth.
ghost use Rattle.std.specs.Prelude.{◌≡◌, ◌+◌, ◌<◌, ◌≤◌, ◌∷◌, ◌++◌, List, IfOk, OnOk, map, length};
ghost use Rattle.std.specs.List.{flat_map};
ghost use Rattle.rw_base.specs.declared.fail.Failure.TheVariants as fail;
ghost use Rattle.rw_types_solving.specs.Types.{Ty};
ghost use Rattle.rw_types_shared.specs.Shared.{type_at, AreBelow, IsProper, Extends};
ghost use Rattle.specialise_rules.specs.Tables.{data_in, Sees};
ghost use Rattle.specialise_rules.specs.Limits.{most_types};
ghost use Rattle.specialise_tables.specs.Fields.{seen_fields, world_with};
ghost use Rattle.specialise_tables.specs.Tabled.{tabled, IsLooked};
ghost use Rattle.specialise_tables.specs.Going.{see, Goes, GoesOn, IsPassed, IsUnderWay, steps_of};
ghost use Rattle.specialise_tables.specs.declared.stack.Task.TheVariants as task;

use crate::fields::Constructors;
use crate::open::open;
use crate::stack::{Stack, Task};
use crate::table::Table;
use rw_base::{Failure, OutOfMemory};
use rw_types_shared::Types;
use std::alloc::Global;

// The most closed data types.
const MOST_TYPES: usize = 65_536;

/// There would be more than 65,536 closed data types.
#[derive(Clone, Copy, Debug, PartialEq, Eq)]
pub struct TooMany;

/// Why no table is made: it would be too long, or memory ran out.
pub type Stop = Failure<TooMany>;

// A data type goes into the table behind its fields, if there is room; so much is left.
fn enter(stack: &mut Stack, number: u32, fields: &[u32], room: usize) -> Result<usize, Stop>
    ensures tasks { OnOk result (stack.new ≡ map task.See fields.now ++ (task.Put number ∷ stack.old)) }
    ensures left { IfOk result (λ left. left + 1 ≡ room) }
    ensures full { result ≡ Err (fail.Refused (record {})) → room ≡ 0 }
{
    if room == 0 {
        return Err(Failure::Refused(TooMany));
    }
    stack.push(Task::Put(number))?;
    stack.see(fields)?;
    Ok(room - 1)
}

// What is looked at again behind its parts, if these were not all looked at; else it is marked.
fn pass(table: &mut Table, stack: &mut Stack, number: u32, parts: &[u32]) -> Result<(), OutOfMemory>
    ensures numbers { OnOk result (table.new.numbers.items ≡ table.old.numbers.items) }
    ensures tasks { OnOk result (IsPassed number parts.now table.old.marks table.new.marks stack.old stack.new) }
{
    if table.marks.has_all(parts) {
        return table.marks.mark(number);
    }
    stack.push(Task::See(number))?;
    stack.see(parts)
}

// Looks at a type; so much room is left.
fn look(
    alloc: Global,
    fields: &[Constructors],
    types: &mut Types,
    table: &mut Table,
    stack: &mut Stack,
    number: u32,
    room: usize,
) -> Result<usize, Stop>
    requires way { IsUnderWay types.old table.old.numbers.items table.old.marks stack.old room }
    requires within { number < length types.old }
    ensures way { IfOk result (λ left. IsUnderWay types.new table.new.numbers.items table.new.marks stack.new left) }
    ensures kept { OnOk result (Extends types.old types.new) }
    ensures goes { OnOk result (GoesOn (world_with (seen_fields fields.now)) (see (type_at types.old number) ∷ steps_of types.old stack.old) (tabled types.old table.old.numbers.items)
        (steps_of types.new stack.new) (tabled types.new table.new.numbers.items)) }
    ensures full { result ≡ Err (fail.Refused (record {})) → (after : List Ty) → Goes (world_with (seen_fields fields.now)) (see (type_at types.old number) ∷ steps_of types.old stack.old) (tabled types.old table.old.numbers.items) after
        → most_types < length after }
{
    if table.marks.has(number) {
        return Ok(room);
    }
    let opened = open(alloc, fields, types, number)?;
    if opened.is_data {
        let left = enter(stack, number, opened.parts.as_slice(), room)?;
        return Ok(left);
    }
    pass(table, stack, number, opened.parts.as_slice())?;
    Ok(room)
}

// Does a task; so much room is left.
fn turn(
    alloc: Global,
    fields: &[Constructors],
    types: &mut Types,
    table: &mut Table,
    stack: &mut Stack,
    task: Task,
    room: usize,
) -> Result<usize, Stop>
    requires { IsUnderWay types.old table.old.numbers.items table.old.marks (task ∷ stack.old) room }
    ensures way { IfOk result (λ left. IsUnderWay types.new table.new.numbers.items table.new.marks stack.new left) }
    ensures kept { OnOk result (Extends types.old types.new) }
    ensures goes { OnOk result (GoesOn (world_with (seen_fields fields.now)) (steps_of types.old (task ∷ stack.old)) (tabled types.old table.old.numbers.items)
        (steps_of types.new stack.new) (tabled types.new table.new.numbers.items)) }
    ensures full { result ≡ Err (fail.Refused (record {})) → (after : List Ty) → Goes (world_with (seen_fields fields.now)) (steps_of types.old (task ∷ stack.old)) (tabled types.old table.old.numbers.items) after
        → most_types < length after }
{
    match task {
        Task::See(number) => look(alloc, fields, types, table, stack, number, room),
        Task::Put(number) => {
            table.put(number)?;
            Ok(room)
        }
    }
}

/// Sees the types with these numbers in turn: the table grows to one that has their data types too. `fields` has the constructors of
/// data types by the numbers of their declarations; fields that are not known yet get numbers.
///
/// Refused where the table would have more than 65,536 types.
pub fn see_all(
    alloc: Global,
    fields: &[Constructors],
    types: &mut Types,
    table: &mut Table,
    numbers: &[u32],
) -> Result<(), Stop>
    requires proper { IsProper types.old }
    requires looked { IsLooked types.old table.old.numbers.items table.old.marks }
    requires narrow { length table.old.numbers.items ≤ most_types }
    requires within { AreBelow (length types.old) numbers.now }
    ensures proper { OnOk result (IsProper types.new) }
    ensures kept { OnOk result (Extends types.old types.new) }
    ensures looked { OnOk result (IsLooked types.new table.new.numbers.items table.new.marks) }
    ensures narrow { OnOk result (length table.new.numbers.items ≤ most_types) }
    ensures sees { OnOk result (Sees (world_with (seen_fields fields.now)) (tabled types.old table.old.numbers.items) (flat_map data_in (map (type_at types.old) numbers.now)) (tabled types.new table.new.numbers.items)) }
    ensures full { result ≡ Err (fail.Refused (record {})) → (after : List Ty) → Sees (world_with (seen_fields fields.now)) (tabled types.old table.old.numbers.items) (flat_map data_in (map (type_at types.old) numbers.now)) after
        → most_types < length after }
{
    let mut stack = Stack::new(alloc);
    stack.see(numbers)?;
    let mut room = MOST_TYPES - table.numbers.len();
    for _turn in 0..u64::MAX {
        let Some(task) = stack.pop() else {
            return Ok(());
        };
        room = turn(alloc, fields, types, table, &mut stack, task, room)?;
    }
    Err(Failure::OutOfMemory)
}
