// What ends where its last part ends, with no closing token, before that part is read.
ghost use Rattle.std.specs.Prelude.{◌≡◌, IfOk};
ghost use Rattle.rw_parser_grammar.specs.Expressions as grammar;
ghost use Rattle.rw_parser_parts.specs.Steps as steps;

use rw_base::{OutOfMemory, Place, Span};
use rw_parser_grammar::{Lexeme, Spot};
use rw_parser_patterns::span_at;
use rw_tree::{Expr, Local, Pat};
use sqlite_items::{Boxed, Items};
use std::alloc::Global;

/// Operands and the operators behind them; open where a lambda, a `let` or an `if` follows, which is the last operand.
#[derive(Drop)]
pub struct Chain {
    pub operands: Items<Expr<Span>>,
    pub operators: Items<Expr<Span>>,
    pub is_open: bool,
}

/// A lambda, a `let` or an `if` without its last part.
#[derive(Drop)]
pub enum Head {
    Lambda(Items<Pat<Span>>),
    Let(Items<Local<Span>>),
    If(Expr<Span>, Expr<Span>),
}

/// A chain that is open, and the head behind it, with the spots at which they begin.
#[derive(Drop)]
pub struct Frame {
    pub at: Spot,
    pub operands: Items<Expr<Span>>,
    pub operators: Items<Expr<Span>>,
    pub head_at: Spot,
    pub head: Head,
}

/// An expression, or a frame whose last part follows.
#[derive(Drop)]
pub enum Step {
    Whole(Expr<Span>),
    Opens(Frame),
}

/// What stands in place of a tree that has no room.
pub fn cut_off(alloc: Global) -> Expr<Span>
    ensures { result ≡ steps.cut_off }
{
    let nowhere = Span {
        first: Place { line: 0, column: 0 },
        from: 0,
        to: 0,
    };
    Expr::Tuple(nowhere, Items::new(alloc))
}

// A head with its last part.
fn headed(
    alloc: Global,
    head: Head,
    span: Span,
    body: Expr<Span>,
) -> Result<Expr<Span>, OutOfMemory>
    ensures { IfOk result (λ made. made ≡ steps.headed head span body) }
{
    let body = Boxed::new(alloc, body)?;
    match head {
        Head::Lambda(pats) => Ok(Expr::Lambda(span, pats, body)),
        Head::Let(locals) => Ok(Expr::Let(span, locals, body)),
        Head::If(test, yes) => {
            let test = Boxed::new(alloc, test)?;
            let yes = Boxed::new(alloc, yes)?;
            Ok(Expr::If(span, test, yes, body))
        }
    }
}

// An operand without operators is itself.
pub fn chained(
    span: Span,
    mut operands: Items<Expr<Span>>,
    operators: Items<Expr<Span>>,
) -> Expr<Span>
    ensures { result ≡ grammar.chained span operands operators }
{
    if operands.len() == 1 {
        operands.remove(0)
    } else {
        Expr::Chain(span, operands, operators)
    }
}

// A frame with its last part, before the tokens that follow.
#[tactic(auto, unfolding(crate::specs::Steps::closed))]
fn closed(
    alloc: Global,
    frame: Frame,
    body: Expr<Span>,
    rest: &[Lexeme],
) -> Result<Expr<Span>, OutOfMemory>
    ensures { IfOk result (λ made. made ≡ steps.closed frame body rest.now) }
{
    let Frame {
        at,
        mut operands,
        operators,
        head_at,
        head,
    } = frame;
    operands.push(headed(alloc, head, span_at(head_at, rest), body)?)?;
    Ok(chained(span_at(at, rest), operands, operators))
}

/// Frames inside one another with the last part of the innermost.
pub fn all_closed(
    alloc: Global,
    mut frames: Items<Frame>,
    body: Expr<Span>,
    rest: &[Lexeme],
) -> Result<Expr<Span>, OutOfMemory>
    ensures { IfOk result (λ made. made ≡ steps.all_closed frames body rest.now) }
{
    let mut made = body;
    while let Some(frame) = frames.pop() {
        made = closed(alloc, frame, made, rest)?;
    }
    Ok(made)
}
