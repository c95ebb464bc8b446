// The frames of expressions and statements: a lambda, a `let` and an `if` with what follows its arrow, its `in` and its
// `else` (Haskell 2010 Report, chapter 3).
ghost use Rattle.std.specs.Prelude.{◌≡◌, min};
ghost use Rattle.rw_parser_reading.specs.Frames.{frames_of_expression, frames_of_statement, most};

use crate::bounded::one_more;
use crate::clause::{locals_frames, rows_frames};
use rw_base::Span;
use rw_tree::{Expr, Stmt};

/// How many frames stand inside one another in an expression, or `bound` where there are more.
#[cycle(trees)]
#[tactic(auto, using(crate::proofs::Counts::expression_counts))]
pub fn expression_frames(bound: usize, tree: &Expr<Span>) -> usize
    ensures { result ≡ min bound (frames_of_expression tree.now) }
{
    match tree {
        Expr::Var(_, _) | Expr::Con(_, _) => 0,
        Expr::Apply(_, head, parts) => {
            let head = expression_frames(bound, head.get());
            head.max(expressions_frames(bound, parts.as_slice()))
        }
        Expr::Tuple(_, parts) => expressions_frames(bound, parts.as_slice()),
        Expr::Chain(_, operands, _) => expressions_frames(bound, operands.as_slice()),
        Expr::Lambda(_, _, body) => one_more(bound, expression_frames(bound, body.get())),
        Expr::Let(_, locals, body) => {
            let body = one_more(bound, expression_frames(bound, body.get()));
            body.max(locals_frames(bound, locals.as_slice()))
        }
        Expr::If(_, test, yes, no) => {
            let no = one_more(bound, expression_frames(bound, no.get()));
            let yes = expression_frames(bound, yes.get());
            no.max(yes.max(expression_frames(bound, test.get())))
        }
        Expr::Case(_, scrutinee, rows) => {
            let rows = rows_frames(bound, rows.as_slice());
            rows.max(expression_frames(bound, scrutinee.get()))
        }
        Expr::Do(_, statements) => statements_frames(bound, statements.as_slice()),
    }
}

// The most that one of several expressions has.
#[cycle(trees)]
fn expressions_frames(bound: usize, trees: &[Expr<Span>]) -> usize
    ensures { result ≡ min bound (most frames_of_expression trees.now) }
{
    let mut frames = 0;
    for tree in trees {
        frames = frames.max(expression_frames(bound, tree));
    }
    frames
}

// Of a statement.
#[cycle(trees)]
#[tactic(auto, using(crate::proofs::Counts::statement_counts))]
fn statement_frames(bound: usize, statement: &Stmt<Span>) -> usize
    ensures { result ≡ min bound (frames_of_statement statement.now) }
{
    match statement {
        Stmt::Bind(_, _, body) => expression_frames(bound, body),
        Stmt::Let(_, locals) => locals_frames(bound, locals.as_slice()),
        Stmt::Run(_, body) => expression_frames(bound, body),
    }
}

// The most that one of several statements has.
#[cycle(trees)]
fn statements_frames(bound: usize, statements: &[Stmt<Span>]) -> usize
    ensures { result ≡ min bound (most frames_of_statement statements.now) }
{
    let mut frames = 0;
    for statement in statements {
        frames = frames.max(statement_frames(bound, statement));
    }
    frames
}
