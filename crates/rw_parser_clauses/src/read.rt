// What tokens begin with: an expression, a block of local declarations, a clause.
ghost use Rattle.std.specs.Prelude.{◌≡◌, ◌<◌, ◌≤◌, ℕ, suc, length, Some, None, Ok, IfOk};
ghost use Rattle.rw_parser_reading.specs.Frames.{frames_of_expression, frames_of_local, most, cut};
ghost use Rattle.rw_parser_reading.specs.ReadLevels as grammar;
ghost use Rattle.rw_base.specs.Answers.{Gives};
ghost use Rattle.rw_parser_clauses.specs.Clause.{frames_of_clause};

use crate::inside::Inside;
use crate::nested::{expression_within, locals_within};
use rw_base::{Name, OutOfMemory, Span, Unread};
use rw_parser_frames::{expression_frames, locals_frames, row_frames};
use rw_parser_grammar::Lexeme;
use rw_tree::{Alt, Expr, Local};
use sqlite_items::Items;
use std::alloc::Global;

// One frame more than there is room for: a tree that has no room is cut off no sooner, so that its frames tell.
fn more_than(room: usize) -> usize
    ensures { result ≤ suc room }
{
    if room < usize::MAX { room + 1 } else { room }
}

// A tree with so many frames, if there is room for them. More than a machine word counts are in no memory.
fn kept<T: Drop>(room: usize, more: usize, frames: usize, tree: T) -> Result<Option<T>, OutOfMemory>
    ensures fits { frames < more → result ≡ Ok (Some tree) }
    ensures cut { more ≤ frames → IfOk result (λ found. (room < more) × (found ≡ None)) }
{
    if frames < more {
        return Ok(Some(tree));
    }
    if more <= room {
        return Err(OutOfMemory);
    }
    Ok(None)
}

/// The expression that the tokens begin with, if there is room for its frames, and the tokens that follow it. It goes
/// as far to the right as it can; chains of operators are not grouped (Haskell 2010 Report, chapter 3).
///
/// A frame is what ends where its last part ends: a lambda, a `let`, an `if`, an arrow of a type. Where more than
/// `room` stand inside one another, the answer has no tree. It is refused exactly where the tokens begin with none.
pub fn read_expression(
    alloc: Global,
    room: usize,
    tokens: &[Lexeme],
) -> Result<(Option<Expr<Span>>, &[Lexeme]), Unread>
    ensures read { (n : ℕ) → length tokens.now ≤ n → Gives (λ x. (x.0, x.1.now)) result (cut frames_of_expression room (grammar.expression_at n tokens.now)) }
    ensures shorter { IfOk result (λ x. length x.1.now < length tokens.now) }
{
    let more = more_than(room);
    let (tree, rest) = expression_within(alloc, tokens.len(), more, tokens)?;
    let frames = expression_frames(more, &tree);
    Ok((kept(room, more, frames, tree)?, rest))
}

/// The block of local declarations that the tokens begin with, if there is room for its frames, and the tokens that
/// follow it. Neighbouring clauses of one name are one declaration (Haskell 2010 Report, sections 3.12 and 4.4.3).
///
/// `room` and the answers are as in `read_expression`.
pub fn read_locals(
    alloc: Global,
    room: usize,
    tokens: &[Lexeme],
) -> Result<(Option<Items<Local<Span>>>, &[Lexeme]), Unread>
    ensures read { (n : ℕ) → length tokens.now ≤ n → Gives (λ x. (x.0, x.1.now)) result (cut (most frames_of_local) room (grammar.locals_at n tokens.now)) }
    ensures shorter { IfOk result (λ x. length x.1.now < length tokens.now) }
{
    let more = more_than(room);
    let (locals, rest) = locals_within(alloc, tokens.len(), more, tokens)?;
    let frames = locals_frames(more, locals.as_slice());
    Ok((kept(room, more, frames, locals)?, rest))
}

/// The clause that the tokens begin with, as its name and a row, if there is room for its frames, and the tokens that
/// follow it (Haskell 2010 Report, section 4.4.3).
///
/// `room` and the answers are as in `read_expression`.
pub fn read_clause(
    alloc: Global,
    room: usize,
    tokens: &[Lexeme],
) -> Result<(Option<(Name, Alt<Span>)>, &[Lexeme]), Unread>
    ensures read { (n : ℕ) → length tokens.now ≤ n → Gives (λ x. (x.0, x.1.now)) result (cut frames_of_clause room (grammar.clause_over n (grammar.expression_at n) (grammar.locals_at n) tokens.now)) }
    ensures shorter { IfOk result (λ x. length x.1.now < length tokens.now) }
{
    let more = more_than(room);
    let inside = Inside {
        alloc,
        levels: tokens.len(),
        room: more,
        expression: expression_within,
        locals: locals_within,
    };
    let (clause, rest) = inside.clause(tokens)?;
    let frames = row_frames(more, &clause.1);
    Ok((kept(room, more, frames, clause)?, rest))
}
