// The frames of clauses, right sides and local declarations (Haskell 2010 Report, sections 3.13 and 4.4.3).
ghost use Rattle.std.specs.Prelude.{◌≡◌, min};
ghost use Rattle.rw_parser_reading.specs.Frames.{frames_of_row, frames_of_side, frames_of_guard, frames_of_local, most};

use crate::expr::expression_frames;
use crate::types::type_frames;
use rw_base::Span;
use rw_tree::{Alt, Guard, Local, Rhs};

/// How many frames stand inside one another in a clause or an alternative, or `bound` where there are more.
#[cycle(trees)]
#[tactic(auto, using(crate::proofs::Counts::row_counts))]
pub fn row_frames(bound: usize, row: &Alt<Span>) -> usize
    ensures { result ≡ min bound (frames_of_row row.now) }
{
    let side = side_frames(bound, &row.rhs);
    side.max(locals_frames(bound, row.wheres.as_slice()))
}

// The most that one of several clauses has.
#[cycle(trees)]
pub fn rows_frames(bound: usize, rows: &[Alt<Span>]) -> usize
    ensures { result ≡ min bound (most frames_of_row rows.now) }
{
    let mut frames = 0;
    for row in rows {
        frames = frames.max(row_frames(bound, row));
    }
    frames
}

// Of a right side.
#[cycle(trees)]
#[tactic(auto, using(crate::proofs::Counts::side_counts))]
fn side_frames(bound: usize, side: &Rhs<Span>) -> usize
    ensures { result ≡ min bound (frames_of_side side.now) }
{
    match side {
        Rhs::Plain(body) => expression_frames(bound, body),
        Rhs::Guarded(guards) => guards_frames(bound, guards.as_slice()),
    }
}

// Of a guard and its body.
#[cycle(trees)]
#[tactic(auto, using(crate::proofs::Counts::guard_counts))]
fn guard_frames(bound: usize, guard: &Guard<Span>) -> usize
    ensures { result ≡ min bound (frames_of_guard guard.now) }
{
    let test = expression_frames(bound, &guard.test);
    test.max(expression_frames(bound, &guard.body))
}

// The most that one of several guards has.
#[cycle(trees)]
fn guards_frames(bound: usize, guards: &[Guard<Span>]) -> usize
    ensures { result ≡ min bound (most frames_of_guard guards.now) }
{
    let mut frames = 0;
    for guard in guards {
        frames = frames.max(guard_frames(bound, guard));
    }
    frames
}

// Of a local declaration.
#[cycle(trees)]
#[tactic(auto, using(crate::proofs::Counts::local_counts))]
fn local_frames(bound: usize, local: &Local<Span>) -> usize
    ensures { result ≡ min bound (frames_of_local local.now) }
{
    match local {
        Local::Sig(_, _, written) => type_frames(bound, written),
        Local::Fun(_, _, rows) => rows_frames(bound, rows.as_slice()),
        Local::Pattern(_, row) => row_frames(bound, row),
    }
}

/// The most that one of several local declarations has, or `bound` where one has more.
#[cycle(trees)]
pub fn locals_frames(bound: usize, locals: &[Local<Span>]) -> usize
    ensures { result ≡ min bound (most frames_of_local locals.now) }
{
    let mut frames = 0;
    for local in locals {
        frames = frames.max(local_frames(bound, local));
    }
    frames
}
