// Names that the language has without a declaration.
ghost use Rattle.std.specs.Prelude.{◌≡◌, ◌++◌, ◌∷◌, [], IfOk, OnOk, codes};
ghost use Rattle.rw_scope_rules.specs.Scope.{monad_names, operation_names};
ghost use Rattle.rw_scope_names.specs.Taken.{first_operations, last_operations};

use crate::names::Names;
use rw_base::{Name, OutOfMemory};
use std::alloc::Global;

// The types `I`, `ReT` and `StateT`.
pub fn taken_types(alloc: Global) -> Result<Names, OutOfMemory>
    ensures { IfOk result (λ names. names ≡ monad_names) }
{
    let mut names = Names::new(alloc);
    names.add(Name::from_slice(alloc, b"I")?)?;
    names.add(Name::from_slice(alloc, b"ReT")?)?;
    names.add(Name::from_slice(alloc, b"StateT")?)?;
    Ok(names)
}

// The operations of every monad, and those of states.
fn add_first(alloc: Global, names: &mut Names) -> Result<(), OutOfMemory>
    requires { names.now ≡ [] }
    ensures { OnOk result (names.new ≡ first_operations) }
{
    names.add(Name::from_slice(alloc, b"return")?)?;
    names.add(Name::from_slice(alloc, b">>=")?)?;
    names.add(Name::from_slice(alloc, b">>")?)?;
    names.add(Name::from_slice(alloc, b"get")?)?;
    names.add(Name::from_slice(alloc, b"put")?)?;
    Ok(())
}

// The operations of devices.
fn add_last(alloc: Global, names: &mut Names) -> Result<(), OutOfMemory>
    requires { names.now ≡ first_operations }
    ensures { OnOk result (names.new ≡ first_operations ++ last_operations) }
{
    names.add(Name::from_slice(alloc, b"lift")?)?;
    names.add(Name::from_slice(alloc, b"signal")?)?;
    names.add(Name::from_slice(alloc, b"extrude")?)?;
    names.add(Name::from_slice(alloc, b"par")?)?;
    names.add(Name::from_slice(alloc, b"refold")?)?;
    Ok(())
}

// The operations.
pub fn operations(alloc: Global) -> Result<Names, OutOfMemory>
    ensures { IfOk result (λ names. names ≡ operation_names) }
{
    let mut names = Names::new(alloc);
    add_first(alloc, &mut names)?;
    add_last(alloc, &mut names)?;
    Ok(names)
}
