// The type of a local signature, cut off where there is no room for its arrows (Haskell 2010 Report, section 4.1.2).
ghost use Rattle.std.specs.Prelude.{◌≡◌, IfOk};
ghost use Rattle.rw_base.specs.Answers.{Gives};
ghost use Rattle.rw_parser_parts.specs.Within as within;

use rw_base::{OutOfMemory, Unread};
use rw_parser_grammar::Lexeme;
use rw_parser_patterns::written_type;
use rw_tree::Written;
use sqlite_items::{Boxed, Items};
use std::alloc::Global;

// A type with so many arrows.
fn deep_type(alloc: Global, arrows: usize) -> Result<Written, OutOfMemory>
    ensures { IfOk result (λ made. made ≡ within.deep_type arrows) }
{
    let mut made = Written::Tuple(Items::new(alloc));
    for _arrow in 0..arrows {
        let from = Boxed::new(alloc, Written::Tuple(Items::new(alloc)))?;
        let to = Boxed::new(alloc, made)?;
        made = Written::Fun(from, to);
    }
    Ok(made)
}

// A type that was kept, or one that has no room either.
fn in_place(alloc: Global, room: usize, found: Option<Written>) -> Result<Written, OutOfMemory>
    ensures { IfOk result (λ made. made ≡ within.in_place room found) }
{
    match found {
        Some(type_) => Ok(type_),
        None => deep_type(alloc, room),
    }
}

// type
#[tactic(auto, unfolding(crate::specs::Within::signature_within))]
pub fn read_signature(
    alloc: Global,
    room: usize,
    tokens: &[Lexeme],
) -> Result<(Written, &[Lexeme]), Unread>
    ensures { Gives (λ x. (x.0, x.1.now)) result (within.signature_within room tokens.now) }
{
    let (found, rest) = written_type(alloc, room, tokens)?;
    Ok((in_place(alloc, room, found)?, rest))
}
