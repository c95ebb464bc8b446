// A chain of operators, grouped from left to right: what waits for its right operand stands on a stack (Haskell 2010
// Report, section 10.6).
ghost use Rattle.std.specs.Prelude.{◌≡◌, ◌∷◌, ◌++◌, ℕ, [], reverse, codes};
ghost use Rattle.std.specs.Str.{bytes_eq};
ghost use Rattle.rw_parser_grammar.specs.Chains as grammar;
ghost use Rattle.rw_parser_grammar.specs.Lexemes.{span_over};
ghost use Rattle.rw_parser_chains.specs.Fixities.{strength_at};
ghost use Rattle.rw_base.specs.Answers.{Gives};
ghost use Rattle.rw_parser_chains.specs.Grouping as spec;

use crate::fixities::{Fixities, Strength};
use crate::levels::above;
use crate::{Broken, Unresolved};
use rw_base::Span;
use rw_tree::{Expr, Side};
use sqlite_items::{Boxed, Items};
use std::alloc::Global;

/// A tree, and how many levels it has.
pub type Counted = (Expr<Span>, usize);

/// An operand and the operator behind it, which wait for the operator's right operand.
pub type Waiting = (Counted, Counted);

/// The name of an operator.
pub fn operator_name(operator: &Expr<Span>) -> &[u8]
    ensures { result.now ≡ grammar.operator_name operator.now }
{
    match operator {
        Expr::Var(_, name) | Expr::Con(_, name) => name.as_slice(),
        _ => b"".as_slice(),
    }
}

fn span_of(expr: &Expr<Span>) -> Span
    ensures { result ≡ grammar.expression_span expr.now }
{
    match expr {
        Expr::Var(at, _) | Expr::Con(at, _) => *at,
        Expr::Apply(at, _, _) => *at,
        Expr::Tuple(at, _) => *at,
        Expr::Chain(at, _, _) => *at,
        Expr::Lambda(at, _, _) => *at,
        Expr::Let(at, _, _) => *at,
        Expr::If(at, _, _, _) => *at,
        Expr::Case(at, _, _) => *at,
        Expr::Do(at, _) => *at,
    }
}

fn over(left: Span, right: Span) -> Span
    ensures { result ≡ span_over left right }
{
    Span {
        first: left.first,
        from: left.from,
        to: right.to,
    }
}

// Tighter, or equal and both to the left.
fn groups_left(inner: Strength, outer: Strength) -> bool
    ensures { result ≡ grammar.groups_left inner outer }
{
    outer.1 < inner.1
        || (inner.1 == outer.1 && (matches!(inner.0, Side::Left) && matches!(outer.0, Side::Left)))
}

// Tighter, or equal and both to the right.
fn groups_right(inner: Strength, outer: Strength) -> bool
    ensures { result ≡ grammar.groups_right inner outer }
{
    outer.1 < inner.1
        || (inner.1 == outer.1
            && (matches!(inner.0, Side::Right) && matches!(outer.0, Side::Right)))
}

// Whether the operator is `$`.
fn applies(operator: &Expr<Span>) -> bool
    ensures { result ≡ bytes_eq (grammar.operator_name operator.now) (codes "$") }
{
    operator_name(operator) == b"$".as_slice()
}

// `a $ b`, the application of a to b.
#[tactic(auto, unfolding(crate::specs::Grouping::applied_node))]
fn application(alloc: Global, left: Counted, right: Counted) -> Result<Counted, Unresolved>
    ensures { Gives (λ c. c) result (spec.applied_node left right) }
{
    let (left, left_levels) = left;
    let (right, right_levels) = right;
    let levels = above(left_levels.max(right_levels))?;
    let at = over(span_of(&left), span_of(&right));
    let mut parts = Items::new(alloc);
    parts.push(right)?;
    Ok((Expr::Apply(at, Boxed::new(alloc, left)?, parts), levels))
}

// Any other operator is applied to its two operands.
#[tactic(auto, unfolding(crate::specs::Grouping::called_node))]
fn call(
    alloc: Global,
    operator: Counted,
    left: Counted,
    right: Counted,
) -> Result<Counted, Unresolved>
    ensures { Gives (λ c. c) result (spec.called_node operator left right) }
{
    let (operator, operator_levels) = operator;
    let (left, left_levels) = left;
    let (right, right_levels) = right;
    let levels = above(operator_levels.max(left_levels.max(right_levels)))?;
    let at = over(span_of(&left), span_of(&right));
    let mut parts = Items::new(alloc);
    parts.push(left)?;
    parts.push(right)?;
    Ok((Expr::Apply(at, Boxed::new(alloc, operator)?, parts), levels))
}

// An operator and its two operands.
fn node(
    alloc: Global,
    operator: Counted,
    left: Counted,
    right: Counted,
) -> Result<Counted, Unresolved>
    ensures { Gives (λ c. c) result (spec.operated operator left right) }
{
    if applies(&operator.0) {
        application(alloc, left, right)
    } else {
        call(alloc, operator, left, right)
    }
}

/// What is tighter than the next operator takes the operand that stands in front of that operator.
pub fn settle(
    alloc: Global,
    fixities: &Fixities,
    next: &Expr<Span>,
    waiting: &mut Vec<Waiting>,
    operand: Counted,
) -> Result<Counted, Unresolved>
    ensures { (n : ℕ) → Gives (λ c. (reverse waiting.new.items, c)) result (spec.settled (strength_at fixities.now) (next.now, n) (reverse waiting.old.items) operand) }
{
    let next = fixities.strength(operator_name(next));
    let mut operand = operand;
    while let Some((left, operator)) = waiting.pop() {
        let strength = fixities.strength(operator_name(&operator.0));
        if !groups_left(strength, next) {
            if !groups_right(next, strength) {
                return Err(Unresolved::Refused(Broken));
            }
            waiting.push((left, operator))?;
            return Ok(operand);
        }
        operand = node(alloc, operator, left, operand)?;
    }
    Ok(operand)
}

/// Behind the last operand everything that waits takes its right operand.
pub fn close(alloc: Global, waiting: Vec<Waiting>, operand: Counted) -> Result<Counted, Unresolved>
    ensures { Gives (λ c. c) result (spec.closed (reverse waiting.items) operand) }
{
    let mut waiting = waiting;
    let mut operand = operand;
    while let Some((left, operator)) = waiting.pop() {
        operand = node(alloc, operator, left, operand)?;
    }
    Ok(operand)
}
