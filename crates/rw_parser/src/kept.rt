// What is kept of the items of a program: those before the first that is too deep, and the fixity declarations behind it.
ghost use Rattle.std.specs.Prelude.{◌≡◌, IfOk};
ghost use Rattle.rw_parser_reading.specs.Shallow as shallow;
ghost use Rattle.rw_parser.specs.Shallow as spec;

use crate::join::{Joined, with_item};
use rw_base::{OutOfMemory, Place};
use rw_parser_grammar::Item;
use rw_tree::Decl;
use std::alloc::Global;

/// The declarations that are kept, and the place of the first item that is too deep, if one is.
pub type Kept = (Joined, Option<Place>);

fn is_fixity(item: &Item) -> bool
    ensures { result ≡ shallow.is_fixity item.now }
{
    match item {
        Item::Whole(decl) => matches!(decl, Decl::Fixity(_, _, _, _)),
        Item::Clause(_, _) => false,
    }
}

// An item that is not too deep.
fn with_shallow(alloc: Global, kept: Kept, item: Item) -> Result<Kept, OutOfMemory>
    ensures { IfOk result (λ made. made ≡ spec.with_shallow kept item) }
{
    let (joined, deep) = kept;
    if deep.is_some() && !is_fixity(&item) {
        return Ok((joined, deep));
    }
    Ok((with_item(alloc, joined, item)?, deep))
}

// An item that is too deep, which stands here.
fn with_deep(kept: Kept, place: Place) -> Kept
    ensures { result ≡ spec.with_deep kept place }
{
    let (joined, deep) = kept;
    match deep {
        Some(first) => (joined, Some(first)),
        None => (joined, Some(place)),
    }
}

/// An item, which stands here; none where it is too deep.
pub fn with_kept(
    alloc: Global,
    kept: Kept,
    place: Place,
    item: Option<Item>,
) -> Result<Kept, OutOfMemory>
    ensures { IfOk result (λ made. made ≡ spec.with_kept kept place item) }
{
    match item {
        Some(item) => with_shallow(alloc, kept, item),
        None => Ok(with_deep(kept, place)),
    }
}
