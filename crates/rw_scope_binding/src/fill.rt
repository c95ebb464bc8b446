// The table of the names at top level: the operations, and what the declarations declare.
ghost use Rattle.std.specs.Prelude.{◌≡◌, ◌++◌, ◌∷◌, map, IfOk, OnOk};
ghost use Rattle.rw_tree.specs.Views.{itself};
ghost use Rattle.rw_tree.specs.Declarations.{declaration, plain_constructor};
ghost use Rattle.rw_scope_rules.specs.Names.{Bytes, first_named};
ghost use Rattle.rw_scope_rules.specs.declared.binding.Binding.TheVariants.{Operation as Operates};
ghost use Rattle.rw_scope_rules.specs.Bindings.{declared_by, declared_constructors, declared_variables, placed_constructors, tops_of};
ghost use Rattle.rw_scope_binding.specs.Operations.{first_operations, last_operations};

use crate::table::Table;
use crate::tops::Tops;
use rw_base::{Name, OutOfMemory, Span};
use rw_scope_rules::{Binding, Operation};
use rw_tree::{Constructor, Decl};
use std::alloc::Global;

// A number of 32 bits: more names are want of memory.
fn number(at: usize) -> Result<u32, OutOfMemory>
    ensures { IfOk result (λ number. number ≡ at) }
{
    if at > u32::MAX as usize {
        return Err(OutOfMemory);
    }
    Ok(at as u32)
}

// The variables of the declarations. The first of several with one name counts, so the last is put in first.
fn variables_of(alloc: Global, decls: &[Decl<Span>]) -> Result<Table<Binding>, OutOfMemory>
    ensures { IfOk result (λ variables. (x : Bytes) → first_named x variables ≡ first_named x (declared_by declared_variables 0 (map (declaration itself) decls.now))) }
{
    let mut variables = Table::new(alloc);
    let mut at = decls.len();
    while at > 0 {
        at -= 1;
        if let Decl::Fun(_, name, _) = &decls[at] {
            variables.put(name.copied(alloc)?, Binding::Declared(number(at)?))?;
        }
    }
    Ok(variables)
}

// Puts in the constructors of the declaration with this number, before what is there.
fn put_constructors(
    alloc: Global,
    table: &mut Table<Binding>,
    decl: u32,
    constructors: &[Constructor],
) -> Result<(), OutOfMemory>
    ensures { OnOk result ((x : Bytes) → first_named x table.new ≡ first_named x (placed_constructors decl 0 (map plain_constructor constructors.now) ++ table.old)) }
{
    let mut at = constructors.len();
    while at > 0 {
        at -= 1;
        let name = constructors[at].name.copied(alloc)?;
        table.put(name, Binding::Constructor(decl, number(at)?))?;
    }
    Ok(())
}

// The constructors of the declarations.
fn constructors_of(alloc: Global, decls: &[Decl<Span>]) -> Result<Table<Binding>, OutOfMemory>
    ensures { IfOk result (λ constructors. (x : Bytes) → first_named x constructors ≡ first_named x (declared_by declared_constructors 0 (map (declaration itself) decls.now))) }
{
    let mut table = Table::new(alloc);
    let mut at = decls.len();
    while at > 0 {
        at -= 1;
        if let Decl::Data(_, made) = &decls[at] {
            put_constructors(alloc, &mut table, number(at)?, made.constructors.as_slice())?;
        }
    }
    Ok(table)
}

fn put_operation(
    alloc: Global,
    table: &mut Table<Binding>,
    name: &[u8],
    operation: Operation,
) -> Result<(), OutOfMemory>
    ensures { OnOk result ((x : Bytes) → first_named x table.new ≡ first_named x ((name.now, Operates operation) ∷ table.old)) }
{
    table.put(
        Name::from_slice(alloc, name)?,
        Binding::Operation(operation),
    )
}

// The operations of every monad, and those of states.
fn put_first(alloc: Global, table: &mut Table<Binding>) -> Result<(), OutOfMemory>
    ensures { OnOk result ((x : Bytes) → first_named x table.new ≡ first_named x (first_operations ++ table.old)) }
{
    put_operation(alloc, table, b"put", Operation::Put)?;
    put_operation(alloc, table, b"get", Operation::Get)?;
    put_operation(alloc, table, b">>", Operation::Then)?;
    put_operation(alloc, table, b">>=", Operation::Bind)?;
    put_operation(alloc, table, b"return", Operation::Return)
}

// The operations of devices.
fn put_last(alloc: Global, table: &mut Table<Binding>) -> Result<(), OutOfMemory>
    ensures { OnOk result ((x : Bytes) → first_named x table.new ≡ first_named x (last_operations ++ table.old)) }
{
    put_operation(alloc, table, b"refold", Operation::Refold)?;
    put_operation(alloc, table, b"par", Operation::Par)?;
    put_operation(alloc, table, b"extrude", Operation::Extrude)?;
    put_operation(alloc, table, b"signal", Operation::Signal)?;
    put_operation(alloc, table, b"lift", Operation::Lift)
}

// The names at top level of a program with these declarations.
pub fn fill(alloc: Global, decls: &[Decl<Span>]) -> Result<Tops, OutOfMemory>
    ensures variables { IfOk result (λ tops. (x : Bytes) → first_named x tops.variables ≡ first_named x (tops_of (map (declaration itself) decls.now)).variables) }
    ensures constructors { IfOk result (λ tops. (x : Bytes) → first_named x tops.constructors ≡ first_named x (tops_of (map (declaration itself) decls.now)).constructors) }
{
    let mut variables = variables_of(alloc, decls)?;
    put_last(alloc, &mut variables)?;
    put_first(alloc, &mut variables)?;
    let constructors = constructors_of(alloc, decls)?;
    Ok(Tops {
        variables,
        constructors,
    })
}
