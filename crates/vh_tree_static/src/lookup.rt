// What the names of items and variables have, in tables.
ghost use Rattle.std.specs.Prelude.{◌≡◌, IfOk, OnOk};
ghost use Rattle.vh_tree.specs.Bits.{Bytes, same_name};
ghost use Rattle.vh_tree.specs.StaticRules.{arity_in, functions_of, width_among};
ghost use Rattle.vh_tree_static.specs.Rules.{and_arity};
ghost use Rattle.rw_base_tables.specs.Tables.{known_in};

use rw_base::OutOfMemory;
use rw_base_tables::Table;
use std::alloc::Global;
use vh_tree::{Ident, Item, Var};

// Whether two names are the same.
pub fn same(a: &Ident, b: &Ident) -> bool
    ensures { result ≡ same_name a.now b.now }
{
    a.as_slice() == b.as_slice()
}

// The widths of these variables by their names. The first of a name counts, so they are put in from the last one back.
pub fn width_table(alloc: Global, vars: &[Var]) -> Result<Table<u32>, OutOfMemory>
    ensures { IfOk result (λ t. known_in t ≡ width_among vars.now) }
{
    let mut widths = Table::new(alloc);
    let mut at = vars.len();
    while at > 0 {
        at -= 1;
        let var = &vars[at];
        widths.put(alloc, var.name.as_slice(), var.width)?;
    }
    Ok(widths)
}

// Puts in how many parameters an item has, if it is a function.
fn put_arity(alloc: Global, arities: &mut Table<usize>, item: &Item) -> Result<(), OutOfMemory>
    ensures { OnOk result ((x : Bytes) → known_in arities.new x ≡ and_arity item.now (known_in arities.old) x) }
{
    match item {
        Item::Signal(_) => Ok(()),
        Item::Function(function) => {
            let count = function.params.as_slice().len();
            arities.put(alloc, function.name.as_slice(), count)
        }
    }
}

// How many parameters each function of these items has, by its name. The first of a name counts here too.
pub fn arity_table(alloc: Global, items: &[Item]) -> Result<Table<usize>, OutOfMemory>
    ensures { IfOk result (λ t. known_in t ≡ arity_in (functions_of items.now)) }
{
    let mut arities = Table::new(alloc);
    let mut at = items.len();
    while at > 0 {
        at -= 1;
        put_arity(alloc, &mut arities, &items[at])?;
    }
    Ok(arities)
}
