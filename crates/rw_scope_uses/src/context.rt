// What the constructors of types take where a type stands: in a signature the monads and the data types, in a field the
// data types alone.
ghost use Rattle.std.specs.Prelude.{◌≡◌, ◌∷◌, ◌++◌, List, IfOk, OnOk, map, flat_map};
ghost use Rattle.std.specs.Option.{option_copied};
ghost use Rattle.rw_tree.specs.declared.types.Kind.TheVariants.{Plain};
ghost use Rattle.rw_base.specs.declared.place.Span.{Span as PlainSpan};
ghost use Rattle.rw_tree.specs.Declarations.{declaration};
ghost use Rattle.rw_tree.specs.declared.types.Kind.{Kind as PlainKind};
ghost use Rattle.rw_scope_rules.specs.Names.{Bytes, first_named};
ghost use Rattle.rw_scope_rules.specs.Kinds.{computations, data_kinds, state_monads};
ghost use Rattle.rw_scope_uses.specs.Contexts.{takes_in, IsOfFields, IsOfSignatures};

use crate::table::Table;
use rw_base::{Name, OutOfMemory};
use rw_tree::{Decl, Kind};
use sqlite_items::Items;
use std::alloc::Global;

/// The kinds of the arguments that a constructor of types takes to be a type, and to be a state monad; and whether an arrow
/// may stand here.
#[derive(Drop)]
pub struct Context {
    pub types: Table<Items<Kind>>,
    pub monads: Table<Items<Kind>>,
    pub arrows: bool,
}

impl Context {
    // The kinds of the arguments that a constructor takes to be of a kind, if it may be of that kind.
    pub fn takes<'a>(&'a self, name: &Name, kind: Kind) -> Option<&'a [Kind]>
        ensures { option_copied result ≡ takes_in self.now name.now kind }
    {
        let found = match kind {
            Kind::Plain => self.types.find(name),
            Kind::StateMonad => self.monads.find(name),
            Kind::Monad => None,
        };
        match found {
            Some(kinds) => Some(kinds.as_slice()),
            None => None,
        }
    }
}

// As many kinds of types as there are variables.
fn plain_kinds(alloc: Global, params: &[Name]) -> Result<Items<Kind>, OutOfMemory>
    ensures { IfOk result (λ kinds. kinds ≡ map (λ p. Plain) params.now) }
{
    let mut kinds = Items::new(alloc);
    for _param in params {
        kinds.push(Kind::Plain)?;
    }
    Ok(kinds)
}

// Adds the data type of a declaration, if it is of one.
fn add_decl<A>(
    alloc: Global,
    types: &mut Table<Items<Kind>>,
    decl: &Decl<A>,
) -> Result<(), OutOfMemory>
    ensures { OnOk result ((see : A → PlainSpan) (x : Bytes) (rest : List (Bytes × List PlainKind)) → first_named x (types.new ++ rest) ≡ first_named x (types.old ++ (data_kinds (declaration see decl.now) ++ rest))) }
{
    match decl {
        Decl::Data(_, made) => {
            let kinds = plain_kinds(alloc, made.params.as_slice())?;
            types.add(made.name.copied(alloc)?, kinds)
        }
        _ => Ok(()),
    }
}

// Adds the data types of these declarations.
fn add_data<A>(
    alloc: Global,
    types: &mut Table<Items<Kind>>,
    decls: &[Decl<A>],
) -> Result<(), OutOfMemory>
    ensures { OnOk result ((see : A → PlainSpan) (x : Bytes) (rest : List (Bytes × List PlainKind)) → first_named x (types.new ++ rest) ≡ first_named x (types.old ++ (flat_map data_kinds (map (declaration see) decls.now) ++ rest))) }
{
    for decl in decls {
        add_decl(alloc, types, decl)?;
    }
    Ok(())
}

// Adds a monad.
fn add_monad(
    alloc: Global,
    table: &mut Table<Items<Kind>>,
    name: &[u8],
    kinds: &[Kind],
) -> Result<(), OutOfMemory>
    ensures { OnOk result ((x : Bytes) (rest : List (Bytes × List PlainKind)) → first_named x (table.new ++ rest) ≡ first_named x (table.old ++ (name.now, kinds.now) ∷ rest)) }
{
    table.add(
        Name::from_slice(alloc, name)?,
        Items::from_slice(alloc, kinds)?,
    )
}

// What the monads take to be a computation.
fn add_computations(alloc: Global, table: &mut Table<Items<Kind>>) -> Result<(), OutOfMemory>
    ensures { OnOk result ((x : Bytes) (rest : List (Bytes × List PlainKind)) → first_named x (table.new ++ rest) ≡ first_named x (table.old ++ (computations ++ rest))) }
{
    let plain = Kind::Plain;
    let monad = Kind::StateMonad;
    add_monad(alloc, table, b"I", &[plain])?;
    add_monad(alloc, table, b"StateT", &[plain, monad, plain])?;
    add_monad(alloc, table, b"ReT", &[plain, plain, monad, plain])
}

// What they take to be a state monad.
fn add_monads(alloc: Global, table: &mut Table<Items<Kind>>) -> Result<(), OutOfMemory>
    ensures { OnOk result ((x : Bytes) (rest : List (Bytes × List PlainKind)) → first_named x (table.new ++ rest) ≡ first_named x (table.old ++ (state_monads ++ rest))) }
{
    add_monad(alloc, table, b"I", &[])?;
    add_monad(alloc, table, b"StateT", &[Kind::Plain, Kind::StateMonad])
}

/// The context of signatures of a program with these declarations, whatever stands at their nodes.
pub fn of_signatures<A>(alloc: Global, decls: &[Decl<A>]) -> Result<Context, OutOfMemory>
    ensures { IfOk result (λ context. (see : A → PlainSpan) → IsOfSignatures (map (declaration see) decls.now) context) }
{
    let mut types = Table::new(alloc);
    add_computations(alloc, &mut types)?;
    add_data(alloc, &mut types, decls)?;
    let mut monads = Table::new(alloc);
    add_monads(alloc, &mut monads)?;
    Ok(Context {
        types,
        monads,
        arrows: true,
    })
}

/// That of fields.
pub fn of_fields<A>(alloc: Global, decls: &[Decl<A>]) -> Result<Context, OutOfMemory>
    ensures { IfOk result (λ context. (see : A → PlainSpan) → IsOfFields (map (declaration see) decls.now) context) }
{
    let mut types = Table::new(alloc);
    add_data(alloc, &mut types, decls)?;
    Ok(Context {
        types,
        monads: Table::new(alloc),
        arrows: false,
    })
}
