// The variables that stand around statements: ports, signals, and the parameters of functions.
ghost use Rattle.std.specs.Prelude.{◌≡◌, ◌++◌, IfOk, OnOk};
ghost use Rattle.vh_tree.specs.StaticRules as rules;
ghost use Rattle.vh_tree.specs.StaticRules.{declared_signals};

use rw_base::OutOfMemory;
use std::alloc::Global;
use vh_tree::{Ident, Item, Var};

// A port of this width.
pub fn port(alloc: Global, name: &[u8], width: u32) -> Result<Var, OutOfMemory>
    ensures { IfOk result (λ v. v ≡ rules.port name.now width) }
{
    let name = Ident::from_slice(alloc, name)?;
    Ok(Var { name, width })
}

// The same variable again.
pub fn again(alloc: Global, var: &Var) -> Result<Var, OutOfMemory>
    ensures { IfOk result (λ v. v ≡ var.now) }
{
    let name = var.name.copied(alloc)?;
    Ok(Var {
        name,
        width: var.width,
    })
}

// Appends the signals of these items.
pub fn add_signals(alloc: Global, vars: &mut Vec<Var>, items: &[Item]) -> Result<(), OutOfMemory>
    ensures { OnOk result (vars.new.items ≡ vars.old.items ++ declared_signals items.now) }
{
    for item in items {
        match item {
            Item::Signal(signal) => vars.push(again(alloc, signal)?)?,
            Item::Function(_) => (),
        }
    }
    Ok(())
}
