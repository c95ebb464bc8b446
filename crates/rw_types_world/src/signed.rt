// The signatures of a program by the names that they are for.
ghost use Rattle.std.specs.Prelude.{◌≡◌, IfOk, OnOk, map, flat_map, option_copied, option_map};
ghost use Rattle.rw_tree.specs.Types.{written};
ghost use Rattle.rw_tree.specs.Declarations.{declaration};
ghost use Rattle.rw_scope_rules.specs.Names.{Bytes, first_named};
ghost use Rattle.rw_types_rules.specs.Schemes.{signatures_in};
ghost use Rattle.rw_types_world.specs.Signatures.{or_then, signed_in};

use rw_base::{Name, OutOfMemory};
use rw_scope_rules::Bound;
use rw_scope_uses::Table;
use rw_tree::{Decl, Written};
use std::alloc::Global;

// The type that a signature gives its names.
#[derive(Clone, Copy)]
pub struct Signed<'a> {
    pub ty: &'a Written,
}

// Adds a signature of these names.
fn add_names<'a>(
    alloc: Global,
    table: &mut Table<Signed<'a>>,
    names: &[Name],
    ty: &'a Written,
) -> Result<(), OutOfMemory>
    ensures { OnOk result ((x : Bytes) → signed_in table.new x ≡ or_then (signed_in table.old x) (first_named x (map (λ y. (y, written ty.now)) names.now))) }
{
    for name in names {
        table.add(name.copied(alloc)?, Signed { ty })?;
    }
    Ok(())
}

// Adds a declaration, if it is a signature.
fn add_decl<'a>(
    alloc: Global,
    table: &mut Table<Signed<'a>>,
    decl: &'a Decl<Bound>,
) -> Result<(), OutOfMemory>
    ensures { OnOk result ((x : Bytes) → signed_in table.new x ≡ or_then (signed_in table.old x) (first_named x (signatures_in (declaration (λ a. a.span) decl.now)))) }
{
    match decl {
        Decl::Sig(_, names, ty) => add_names(alloc, table, names.as_slice(), ty),
        _ => Ok(()),
    }
}

// The signatures of these declarations. Of two for one name the first counts.
pub fn signatures_of<'a>(
    alloc: Global,
    decls: &'a [Decl<Bound>],
) -> Result<Table<Signed<'a>>, OutOfMemory>
    ensures { IfOk result (λ table. (x : Bytes) → signed_in table x ≡ first_named x (flat_map signatures_in (map (declaration (λ a. a.span)) decls.now))) }
{
    let mut table = Table::new(alloc);
    for decl in decls {
        add_decl(alloc, &mut table, decl)?;
    }
    Ok(table)
}

// The type of the signature of the name.
pub fn signature_of<'a>(table: &Table<Signed<'a>>, name: &Name) -> Option<&'a Written>
    ensures { option_map written (option_copied result) ≡ signed_in table.now name.now }
{
    match table.find(name) {
        Some(signed) => Some(signed.ty),
        None => None,
    }
}
