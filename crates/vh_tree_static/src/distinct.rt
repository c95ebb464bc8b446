// Whether names are distinct.
ghost use Rattle.std.specs.Prelude.{◌≡◌, ◌++◌, IfOk, OnOk, map};
ghost use Rattle.vh_tree.specs.StaticRules.{are_distinct, item_names, names_of};
ghost use Rattle.vh_tree_static.specs.Named.{IsSet};

use crate::table::has;
use rw_base::OutOfMemory;
use rw_base_tables::Table;
use std::alloc::Global;
use vh_tree::{Ident, Item, Var};

// These names, if no two are the same.
pub fn as_set(alloc: Global, names: &[Ident]) -> Result<Option<Table<()>>, OutOfMemory>
    ensures { IfOk result (λ o. IsSet o names.now) }
{
    let mut seen = Table::new(alloc);
    let mut at = names.len();
    while at > 0 {
        at -= 1;
        let name = &names[at];
        if has(&seen, name) {
            return Ok(None);
        }
        seen.put(alloc, name.as_slice(), ())?;
    }
    Ok(Some(seen))
}

// Whether no two of these names are the same.
pub fn distinct(alloc: Global, names: &[Ident]) -> Result<bool, OutOfMemory>
    ensures { IfOk result (λ b. b ≡ are_distinct names.now) }
{
    Ok(as_set(alloc, names)?.is_some())
}

// Appends the names of these items.
pub fn add_items(alloc: Global, names: &mut Vec<Ident>, items: &[Item]) -> Result<(), OutOfMemory>
    ensures { OnOk result (names.new.items ≡ names.old.items ++ item_names items.now) }
{
    for item in items {
        match item {
            Item::Signal(signal) => names.push(signal.name.copied(alloc)?)?,
            Item::Function(function) => names.push(function.name.copied(alloc)?)?,
        }
    }
    Ok(())
}

// Appends these names.
pub fn add_names(alloc: Global, names: &mut Vec<Ident>, more: &[Ident]) -> Result<(), OutOfMemory>
    ensures { OnOk result (names.new.items ≡ names.old.items ++ more.now) }
{
    for name in more {
        names.push(name.copied(alloc)?)?;
    }
    Ok(())
}

// Appends the names of these variables.
pub fn add_vars(alloc: Global, names: &mut Vec<Ident>, vars: &[Var]) -> Result<(), OutOfMemory>
    ensures { OnOk result (names.new.items ≡ names.old.items ++ names_of vars.now) }
{
    for var in vars {
        names.push(var.name.copied(alloc)?)?;
    }
    Ok(())
}
