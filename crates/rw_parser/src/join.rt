// Neighbouring clauses of one name as one declaration (Haskell 2010 Report, section 4.4.3.1), item after item.
ghost use Rattle.std.specs.Prelude.{◌≡◌, IfOk};
ghost use Rattle.rw_parser.specs.Joined as joins;

use rw_base::{Name, OutOfMemory, Span};
use rw_parser_grammar::Item;
use rw_parser_parts::{Group, begun, longer};
use rw_tree::{Alt, Decl};
use sqlite_items::Items;
use std::alloc::Global;

/// Declarations that are whole, and a function whose clauses may go on.
pub type Joined = (Items<Decl<Span>>, Option<Group>);

/// What was joined, with the function that is open as one declaration.
pub fn closed(joined: Joined) -> Result<Items<Decl<Span>>, OutOfMemory>
    ensures { IfOk result (λ made. made ≡ joins.closed joined) }
{
    let (mut all, going) = joined;
    if let Some(group) = going {
        let Group { span, name, rows } = group;
        all.push(Decl::Fun(span, name, rows))?;
    }
    Ok(all)
}

// A clause behind what was joined: it goes on with the open function if it has its name.
fn with_clause(
    alloc: Global,
    joined: Joined,
    name: Name,
    row: Alt<Span>,
) -> Result<Joined, OutOfMemory>
    ensures { IfOk result (λ made. made ≡ joins.with_clause joined name row) }
{
    let (all, going) = joined;
    match going {
        Some(group) => {
            if group.name.as_slice() == name.as_slice() {
                return Ok((all, Some(longer(group, row)?)));
            }
            let all = closed((all, Some(group)))?;
            Ok((all, Some(begun(alloc, name, row)?)))
        }
        None => Ok((all, Some(begun(alloc, name, row)?))),
    }
}

/// An item behind what was joined.
pub fn with_item(alloc: Global, joined: Joined, item: Item) -> Result<Joined, OutOfMemory>
    ensures { IfOk result (λ made. made ≡ joins.with_item joined item) }
{
    match item {
        Item::Clause(name, row) => with_clause(alloc, joined, name, row),
        Item::Whole(decl) => {
            let mut all = closed(joined)?;
            all.push(decl)?;
            Ok((all, None))
        }
    }
}
