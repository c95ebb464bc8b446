// Neighbouring clauses of one name as one declaration (Haskell 2010 Report, section 4.4.3.1).
ghost use Rattle.std.specs.Prelude.{◌≡◌, reverse, IfOk};
ghost use Rattle.rw_tree.specs.declared.clause.Local.TheVariants as l;
ghost use Rattle.rw_parser_grammar.specs.Clauses as grammar;
ghost use Rattle.rw_parser_parts.specs.Joined as joins;

use rw_base::{Name, OutOfMemory, Span};
use rw_parser_grammar::Bound;
use rw_tree::{Alt, Local};
use sqlite_items::Items;
use std::alloc::Global;

/// Clauses of one name so far, from the first token of the first to the last of the last.
#[derive(Drop)]
pub struct Group {
    pub span: Span,
    pub name: Name,
    pub rows: Items<Alt<Span>>,
}

// The list from its last to its first.
fn reversed<T: Drop>(alloc: Global, mut items: Items<T>) -> Result<Items<T>, OutOfMemory>
    ensures { IfOk result (λ made. made ≡ reverse items) }
{
    let mut made = Items::new(alloc);
    while let Some(item) = items.pop() {
        made.push(item)?;
    }
    Ok(made)
}

/// The group with one clause more, behind the others.
pub fn longer(group: Group, row: Alt<Span>) -> Result<Group, OutOfMemory>
    ensures { IfOk result (λ made. made ≡ joins.longer group row) }
{
    let Group {
        span,
        name,
        mut rows,
    } = group;
    let span = Span {
        first: span.first,
        from: span.from,
        to: row.at.to,
    };
    rows.push(row)?;
    Ok(Group { span, name, rows })
}

// What was joined, with the group that was open as one declaration.
fn closed(
    mut all: Items<Local<Span>>,
    going: Option<Group>,
) -> Result<Items<Local<Span>>, OutOfMemory>
    ensures { IfOk result (λ made. made ≡ joins.closed l.Fun all going) }
{
    if let Some(group) = going {
        let Group { span, name, rows } = group;
        all.push(Local::Fun(span, name, rows))?;
    }
    Ok(all)
}

/// A group of one clause.
pub fn begun(alloc: Global, name: Name, row: Alt<Span>) -> Result<Group, OutOfMemory>
    ensures { IfOk result (λ made. made ≡ joins.begun name row) }
{
    let span = row.at;
    let mut rows = Items::new(alloc);
    rows.push(row)?;
    Ok(Group { span, name, rows })
}

// A clause behind what was joined: it goes on with the open group if it has its name.
fn with_clause(
    alloc: Global,
    all: Items<Local<Span>>,
    going: Option<Group>,
    name: Name,
    row: Alt<Span>,
) -> Result<(Items<Local<Span>>, Option<Group>), OutOfMemory>
    ensures { IfOk result (λ made. made ≡ joins.with_clause l.Fun all going name row) }
{
    match going {
        Some(group) => {
            if group.name.as_slice() == name.as_slice() {
                return Ok((all, Some(longer(group, row)?)));
            }
            let all = closed(all, Some(group))?;
            Ok((all, Some(begun(alloc, name, row)?)))
        }
        None => Ok((all, Some(begun(alloc, name, row)?))),
    }
}

// An entry behind what was joined.
fn with_entry(
    alloc: Global,
    all: Items<Local<Span>>,
    going: Option<Group>,
    entry: Bound,
) -> Result<(Items<Local<Span>>, Option<Group>), OutOfMemory>
    ensures { IfOk result (λ made. made ≡ joins.with_entry (all, going) entry) }
{
    match entry {
        Bound::Clause(name, row) => with_clause(alloc, all, going, name, row),
        Bound::Whole(local) => {
            let mut all = closed(all, going)?;
            all.push(local)?;
            Ok((all, None))
        }
    }
}

/// The entries of a block as declarations: neighbouring clauses of one name are one.
pub fn join(alloc: Global, entries: Items<Bound>) -> Result<Items<Local<Span>>, OutOfMemory>
    ensures { IfOk result (λ made. made ≡ grammar.locals_of (grammar.local_groups entries)) }
{
    let mut left = reversed(alloc, entries)?;
    let mut all = Items::new(alloc);
    let mut going = None;
    while let Some(entry) = left.pop() {
        let (more, next) = with_entry(alloc, all, going, entry)?;
        all = more;
        going = next;
    }
    Ok(closed(all, going)?)
}
