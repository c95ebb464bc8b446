// Expressions and blocks of local declarations inside one another. A call goes down for a bracket and for a block
// alone: what a lambda, a `let` or an `if` ends with is read by the next turn of a loop, which puts these round it at
// the end. What has no room is cut off: something small stands in its place, and the tokens that follow are the right
// ones.
ghost use Rattle.std.specs.Prelude.{◌≡◌, IfOk};
ghost use Rattle.rw_base.specs.Answers.{Gives};
ghost use Rattle.rw_parser_parts.specs.Within as within;
ghost use Rattle.rw_parser_clauses.specs.Last as parts;

use crate::inside::Inside;
use rw_base::{NotSpelled, OutOfMemory, Span, Unread};
use rw_parser_grammar::Lexeme;
use rw_parser_parts::{Frame, Step, all_closed, cut_off};
use rw_tree::{Expr, Local};
use sqlite_items::Items;
use std::alloc::Global;

// The last part of frames, one of which may have had no room.
fn last_part(alloc: Global, is_cut: bool, tree: Expr<Span>) -> Expr<Span>
    ensures { result ≡ parts.last_part is_cut tree }
{
    if is_cut { cut_off(alloc) } else { tree }
}

// Frames with one more, where there is room for it, the room that is left, and whether one had none.
fn with_frame(
    room: usize,
    is_cut: bool,
    mut frames: Items<Frame>,
    frame: Frame,
) -> Result<(Items<Frame>, usize, bool), OutOfMemory>
    ensures { IfOk result (λ made. made ≡ parts.with_frame room is_cut frames frame) }
{
    if room == 0 {
        return Ok((frames, 0, true));
    }
    frames.push(frame)?;
    Ok((frames, room - 1, is_cut))
}

// An expression, with at most so many levels of expressions and blocks, where there is room for so many frames.
#[cycle(nested)]
pub fn expression_within(
    alloc: Global,
    levels: usize,
    room: usize,
    tokens: &[Lexeme],
) -> Result<(Expr<Span>, &[Lexeme]), Unread>
    ensures { Gives (λ x. (x.0, x.1.now)) result (within.expression_within levels room tokens.now) }
{
    let mut frames = Items::new(alloc);
    let mut left = room;
    let mut is_cut = false;
    let mut rest = tokens;
    for turn in 0..levels {
        let inside = Inside {
            alloc,
            levels: levels - (turn + 1),
            room: left,
            expression: expression_within,
            locals: locals_within,
        };
        let (step, behind) = inside.step(rest)?;
        match step {
            Step::Whole(tree) => {
                let last = last_part(alloc, is_cut, tree);
                return Ok((all_closed(alloc, frames, last, behind)?, behind));
            }
            Step::Opens(frame) => {
                let (more, less, cut) = with_frame(left, is_cut, frames, frame)?;
                frames = more;
                left = less;
                is_cut = cut;
                rest = behind;
            }
        }
    }
    Err(Unread::Refused(NotSpelled))
}

// A block of local declarations, with at most so many levels of expressions and blocks, where there is room for so
// many frames.
#[cycle(nested)]
pub fn locals_within(
    alloc: Global,
    levels: usize,
    room: usize,
    tokens: &[Lexeme],
) -> Result<(Items<Local<Span>>, &[Lexeme]), Unread>
    ensures { Gives (λ x. (x.0, x.1.now)) result (within.locals_within levels room tokens.now) }
{
    if levels == 0 {
        return Err(Unread::Refused(NotSpelled));
    }
    let inside = Inside {
        alloc,
        levels: levels - 1,
        room,
        expression: expression_within,
        locals: locals_within,
    };
    inside.locals_over(tokens)
}
