// E11: data types that are recursive or empty (Haskell 2010 Report, section 4.2.1).
ghost use Rattle.std.specs.Prelude.{◌≡◌, ◌||◌, IfOk, flat_map, map};
ghost use Rattle.rw_scope_graph.specs.Waiting.{marked};
ghost use Rattle.rw_tree.specs.Views.{itself};
ghost use Rattle.rw_tree.specs.Declarations.{plain_program};
ghost use Rattle.rw_scope_rules.specs.Kinds.{is_empty, recursive_or_empty as recursive_or_empty_of};
ghost use Rattle.rw_scope_kinds.specs.Mentions.{ill_by, is_marked_by, plain_made};

use crate::mentions::{Made, data_types, mentions, numbers};
use rw_base::{OutOfMemory, Place, Span};
use rw_scope_graph::circular;
use rw_scope_uses::Table;
use rw_tree::Program;
use std::alloc::Global;

// Whether the node with this number is marked.
fn is_marked(marks: &[bool], node: usize) -> bool
    ensures { result ≡ marked marks.now node }
{
    match marks.get(node) {
        Some(mark) => *mark,
        None => false,
    }
}

// Whether a data type has no constructor, or leads back to itself.
fn is_ill(table: &Table<u32>, marks: &[bool], one: &Made<'_>) -> bool
    ensures { result ≡ (is_empty (plain_made one.now).2 || is_marked_by table.now marks.now (plain_made one.now).1) }
{
    if one.made.constructors.is_empty() {
        return true;
    }
    match table.find(&one.made.name) {
        Some(number) => is_marked(marks, *number as usize),
        None => false,
    }
}

// The places of those that are.
fn ill_places(
    alloc: Global,
    table: &Table<u32>,
    marks: &[bool],
    all: &[Made<'_>],
) -> Result<Vec<Place>, OutOfMemory>
    ensures { IfOk result (λ places. places.items ≡ flat_map (ill_by table.now marks.now) (map plain_made all.now)) }
{
    let mut places = Vec::new(alloc);
    for one in all {
        if is_ill(table, marks, one) {
            places.push(one.at.first)?;
        }
    }
    Ok(places)
}

/// The places of the data types that have no constructor, or mention themselves in the type of a field, be it as an argument
/// or by way of other data types, in the order of the program.
pub fn recursive_or_empty(alloc: Global, program: &Program<Span>) -> Result<Vec<Place>, OutOfMemory>
    ensures { IfOk result (λ places. places.items ≡ recursive_or_empty_of (plain_program itself program.now)) }
{
    let all = data_types(alloc, program.decls.as_slice())?;
    let table = numbers(alloc, all.as_slice())?;
    let graph = mentions(alloc, &table, all.as_slice())?;
    let marks = circular(alloc, graph.as_slice())?;
    ill_places(alloc, &table, marks.as_slice(), all.as_slice())
}
