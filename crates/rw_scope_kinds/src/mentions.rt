// The data types of a program, and the graph of what their fields mention, in an argument too.
ghost use Rattle.std.specs.Prelude.{◌≡◌, ◌++◌, List, IfOk, OnOk, map, flat_map};
ghost use Rattle.rw_tree.specs.Views.{itself};
ghost use Rattle.rw_tree.specs.Types.{written, writtens, type_parts};
ghost use Rattle.rw_tree.specs.Declarations.{declaration, plain_constructor};
ghost use Rattle.rw_scope_rules.specs.Names.{Bytes, first_named};
ghost use Rattle.rw_scope_rules.specs.Scope.{fields_of, type_constructors, types_constructors};
ghost use Rattle.rw_scope_kinds.specs.Mentions.{made_of, mention_graph, numbered, numbers_by, plain_made};

use rw_base::{OutOfMemory, Span};
use rw_scope_uses::Table;
use rw_tree::{Constructor, DataDecl, Decl, Written};
use sqlite_items::Items;
use std::alloc::Global;

// A data type, and where it stands.
#[derive(Clone, Copy)]
pub struct Made<'a> {
    pub at: Span,
    pub made: &'a DataDecl,
}

// The data types of these declarations, in order.
pub fn data_types<'a>(alloc: Global, decls: &'a [Decl<Span>]) -> Result<Vec<Made<'a>>, OutOfMemory>
    ensures { IfOk result (λ all. map plain_made all.items ≡ flat_map made_of (map (declaration itself) decls.now)) }
{
    let mut all = Vec::new(alloc);
    for decl in decls {
        if let Decl::Data(at, made) = decl {
            all.push(Made { at: *at, made })?;
        }
    }
    Ok(all)
}

// A number of 32 bits: more data types are want of memory.
fn number(at: usize) -> Result<u32, OutOfMemory>
    ensures { IfOk result (λ number. number ≡ at) }
{
    if at > u32::MAX as usize {
        return Err(OutOfMemory);
    }
    Ok(at as u32)
}

// The numbers of data types by their names: the first of a name counts.
pub fn numbers(alloc: Global, all: &[Made<'_>]) -> Result<Table<u32>, OutOfMemory>
    ensures { IfOk result (λ table. (x : Bytes) → first_named x table ≡ first_named x (numbered 0 (map plain_made all.now))) }
{
    let mut table = Table::new(alloc);
    for (i, one) in all.iter().enumerate() {
        table.add(one.made.name.copied(alloc)?, number(i)?)?;
    }
    Ok(table)
}

// Adds the numbers of the data types that stand in a type.
#[cycle(mentioning)]
fn add_mentioned(table: &Table<u32>, ty: &Written, row: &mut Items<u32>) -> Result<(), OutOfMemory>
    ensures { OnOk result (row.new ≡ row.old ++ flat_map (numbers_by table.now) (type_constructors (written ty.now))) }
{
    match ty {
        Written::Var(_) => Ok(()),
        Written::Con(name) => match table.find(name) {
            Some(found) => {
                row.push(*found)?;
                Ok(())
            }
            None => Ok(()),
        },
        Written::Apply(head, parts) => {
            add_mentioned(table, head.get(), row)?;
            add_all(table, parts.as_slice(), row)
        }
        Written::Fun(from, to) => {
            add_mentioned(table, from.get(), row)?;
            add_mentioned(table, to.get(), row)
        }
        Written::Tuple(parts) => add_all(table, parts.as_slice(), row),
    }
}

#[cycle(mentioning)]
fn add_all(table: &Table<u32>, types: &[Written], row: &mut Items<u32>) -> Result<(), OutOfMemory>
    ensures parts { OnOk result (row.new ≡ row.old ++ flat_map (numbers_by table.now) (types_constructors (type_parts (writtens types.now)))) }
    ensures listed { OnOk result (row.new ≡ row.old ++ flat_map (numbers_by table.now) (flat_map type_constructors (writtens types.now))) }
{
    for ty in types {
        add_mentioned(table, ty, row)?;
    }
    Ok(())
}

// What a data type mentions.
fn row(
    alloc: Global,
    table: &Table<u32>,
    constructors: &[Constructor],
) -> Result<Items<u32>, OutOfMemory>
    ensures { IfOk result (λ row. row ≡ flat_map (numbers_by table.now) (flat_map type_constructors (fields_of (map plain_constructor constructors.now)))) }
{
    let mut row = Items::new(alloc);
    for constructor in constructors {
        add_all(table, constructor.fields.as_slice(), &mut row)?;
    }
    Ok(row)
}

// What each data type mentions.
pub fn mentions(
    alloc: Global,
    table: &Table<u32>,
    all: &[Made<'_>],
) -> Result<Items<Items<u32>>, OutOfMemory>
    ensures { IfOk result (λ graph. graph ≡ mention_graph table.now (map plain_made all.now)) }
{
    let mut graph = Items::new(alloc);
    for one in all {
        graph.push(row(alloc, table, one.made.constructors.as_slice())?)?;
    }
    Ok(graph)
}
