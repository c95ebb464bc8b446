// The store of a function: its parameters and variables.
ghost use Rattle.std.specs.Prelude.{◌≡◌, [], ◌++◌, OnOk, IfOk, MatchOption, map};
ghost use Rattle.vh_tree.specs.Functions.{Calls, value_in, entered, parameters_of, variable_of, stored};

use crate::PlainFail;
use crate::bits::{same, unset};
use rw_base::Bit9;
use sqlite_items::Items;
use std::alloc::Global;
use vh_tree::{Function, Held, Ident, Var};

fn add_parameters(
    alloc: Global,
    store: &mut Vec<Held>,
    params: &[Ident],
    args: &[Items<Bit9>],
) -> Result<(), PlainFail>
    ensures { OnOk result (store.new.items ≡ store.old.items ++ parameters_of params.now args.now) }
{
    let mut rest = args;
    for param in params {
        match rest {
            [] => return Ok(()),
            [arg, more @ ..] => {
                let name = param.copied(alloc)?;
                let value = Items::from_slice(alloc, arg.as_slice())?;
                store.push(Held { name, value })?;
                rest = more;
            }
        }
    }
    Ok(())
}

fn add_variables(alloc: Global, store: &mut Vec<Held>, vars: &[Var]) -> Result<(), PlainFail>
    ensures { OnOk result (store.new.items ≡ store.old.items ++ map variable_of vars.now) }
{
    for var in vars {
        let name = var.name.copied(alloc)?;
        let value = unset(alloc, var.width)?;
        store.push(Held { name, value })?;
    }
    Ok(())
}

/// The store of a function that is called with these arguments.
pub fn enter(alloc: Global, f: &Function, args: &[Items<Bit9>]) -> Result<Vec<Held>, PlainFail>
    ensures { IfOk result (λ store. store.items ≡ entered f.now args.now) }
{
    let mut store = Vec::new(alloc);
    add_parameters(alloc, &mut store, f.params.as_slice(), args)?;
    add_variables(alloc, &mut store, f.vars.as_slice())?;
    Ok(store)
}

/// Gives a variable its value.
pub fn assign(store: &mut Vec<Held>, name: &Ident, value: Items<Bit9>)
    ensures { store.new.items ≡ stored name.now value store.old.items }
{
    for at in 0..store.len() {
        let held = &mut store[at];
        if same(&held.name, name) {
            held.value = value;
            return;
        }
    }
}

/// The value of a name, if it is one of the store's.
pub fn find<'a>(store: &'a [Held], name: &Ident) -> Option<&'a [Bit9]>
    ensures { (calls : Calls) → MatchOption result (value_in store.now calls name.now ≡ calls name.now []) (λ bits. value_in store.now calls name.now ≡ bits.now) }
{
    for held in store {
        if same(&held.name, name) {
            return Some(held.value.as_slice());
        }
    }
    None
}
