// The kinds of the variables of a signature.
ghost use Rattle.std.specs.Prelude.{◌≡◌, [], IfOk, map};
ghost use Rattle.rw_tree.specs.declared.types.Kind.TheVariants.{Plain};
ghost use Rattle.rw_tree.specs.Types.{written};
ghost use Rattle.rw_scope_rules.specs.Names.{Bytes};
ghost use Rattle.rw_scope_rules.specs.Kinds.{uses_of};
ghost use Rattle.rw_types_rules.specs.Written.{joined_kind, kind_in, known_uses};
ghost use Rattle.rw_scope_uses.specs.Contexts.{takes_in};
ghost use Rattle.rw_scope_uses.specs.Spine.{plain_uses};
ghost use Rattle.rw_types_world.specs.Parts.{kind_by};

use rw_base::{Name, OutOfMemory};
use rw_scope_uses::{Context, Table, Use, add_uses};
use rw_tree::{Kind, Written};
use rw_types_rules::VariableKind;
use sqlite_items::Items;
use std::alloc::Global;

// What a variable is that was taken for the one kind and stands at the other.
fn joined(so_far: VariableKind, kind: Kind) -> VariableKind
    ensures { result ≡ joined_kind so_far kind }
{
    match (so_far, kind) {
        (_, Kind::Plain) => so_far,
        (_, Kind::StateMonad) => VariableKind::StateMonad,
        (VariableKind::StateMonad, Kind::Monad) => VariableKind::StateMonad,
        (_, Kind::Monad) => VariableKind::Monad,
    }
}

// What the table says that a variable is: a type, if it says nothing.
fn kind_of(table: &Table<VariableKind>, name: &Name) -> VariableKind
    ensures { result ≡ kind_by table.now name.now }
{
    match table.find(name) {
        Some(kind) => *kind,
        None => VariableKind::Plain,
    }
}

// What each variable is that is used so.
fn kinds_by_name(alloc: Global, uses: &[Use<'_>]) -> Result<Table<VariableKind>, OutOfMemory>
    ensures { IfOk result (λ table. (x : Bytes) → kind_by table x ≡ kind_in (plain_uses uses.now) x) }
{
    let mut table = Table::new(alloc);
    for done in 0..uses.len() {
        let one = &uses[uses.len() - 1 - done];
        let kind = joined(kind_of(&table, one.name), one.kind);
        table.put(one.name.copied(alloc)?, kind)?;
    }
    Ok(table)
}

// What each of these variables is.
fn listed_kinds(
    alloc: Global,
    table: &Table<VariableKind>,
    variables: &[Name],
) -> Result<Items<VariableKind>, OutOfMemory>
    ensures { IfOk result (λ kinds. kinds ≡ map (kind_by table.now) variables.now) }
{
    let mut kinds = Items::new(alloc);
    for name in variables {
        kinds.push(kind_of(table, name))?;
    }
    Ok(kinds)
}

// What each of these variables is that is used so.
fn kinds_in(
    alloc: Global,
    uses: &[Use<'_>],
    variables: &[Name],
) -> Result<Items<VariableKind>, OutOfMemory>
    ensures { IfOk result (λ kinds. kinds ≡ map (kind_in (plain_uses uses.now)) variables.now) }
{
    let table = kinds_by_name(alloc, uses)?;
    listed_kinds(alloc, &table, variables)
}

// The kinds of these variables of a type as written.
pub fn variable_kinds(
    alloc: Global,
    context: &Context,
    ty: &Written,
    variables: &[Name],
) -> Result<Items<VariableKind>, OutOfMemory>
    ensures { IfOk result (λ kinds. kinds ≡ map (kind_in (known_uses (uses_of (takes_in context.now) context.now.arrows (written ty.now) [] Plain))) variables.now) }
{
    let mut uses = Vec::new(alloc);
    if add_uses(context, ty, &mut uses)? {
        return kinds_in(alloc, uses.as_slice(), variables);
    }
    kinds_in(alloc, &[], variables)
}
