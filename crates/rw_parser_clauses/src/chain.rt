// Chains of operands and operators, and the lambda, the `let` or the `if` that may end one, up to its last part
// (Haskell 2010 Report, sections 3.3 to 3.6 and 3.12).
ghost use Rattle.std.specs.Prelude.{◌≡◌, length};
ghost use Rattle.rw_base.specs.Answers.{Gives};
ghost use Rattle.rw_parser_patterns.specs.Depth.{any_pattern_at};
ghost use Rattle.rw_parser_parts.specs.Nests.{Nests};
ghost use Rattle.rw_parser_parts.specs.Steps as steps;
ghost use Rattle.rw_parser_parts.specs.Within as within;
ghost use Rattle.rw_parser_clauses.specs.Inside as inside;

use crate::inside::Inside;
use rw_base::{NotSpelled, Span, Unread};
use rw_parser_grammar::{Lexeme, Mark};
use rw_parser_parts::{Chain, Frame, Head, Step, begins_last, begins_op, chained, op, span_of};
use rw_parser_patterns::{after, apats, begins_apat, next_spot, rest_of, sees};
use rw_tree::{Expr, Local};
use sqlite_items::Items;
use std::alloc::Global;

// Behind a backslash: apat+ `->`
#[tactic(auto, unfolding(rw_parser_parts::specs::Steps::lambda_head_at))]
fn lambda_head(alloc: Global, tokens: &[Lexeme]) -> Result<(Head, &[Lexeme]), Unread>
    ensures { Gives (λ x. (x.0, x.1.now)) result (steps.lambda_head_at any_pattern_at tokens.now) }
{
    if !begins_apat(tokens) {
        return Err(Unread::Refused(NotSpelled));
    }
    let (pats, rest) = apats(alloc, tokens)?;
    let rest = after(rest, Mark::Arrow)?;
    Ok((Head::Lambda(pats), rest))
}

impl<E, L> Inside<E, L>
where
    E: Fn(Global, usize, usize, &[Lexeme]) -> Result<(Expr<Span>, &[Lexeme]), Unread>,
    L: Fn(Global, usize, usize, &[Lexeme]) -> Result<(Items<Local<Span>>, &[Lexeme]), Unread>,
{
    // Behind `let`: locals `in`
    #[tactic(auto, unfolding(rw_parser_parts::specs::Steps::let_head_at))]
    fn let_head<'a>(&self, tokens: &'a [Lexeme]) -> Result<(Head, &'a [Lexeme]), Unread>
        requires { Nests self.now.levels (E.pre self.now.expression) (E.post self.now.expression) (L.pre self.now.locals) (L.post self.now.locals) }
        ensures { Gives (λ x. (x.0, x.1.now)) result (steps.let_head_at (within.locals_within self.now.levels self.now.room) tokens.now) }
    {
        let (locals, rest) = self.block(tokens)?;
        let rest = after(rest, Mark::In)?;
        Ok((Head::Let(locals), rest))
    }

    // Behind `if`: exp `then` exp `else`
    #[tactic(auto, unfolding(rw_parser_parts::specs::Steps::if_head_at))]
    fn if_head<'a>(&self, tokens: &'a [Lexeme]) -> Result<(Head, &'a [Lexeme]), Unread>
        requires { Nests self.now.levels (E.pre self.now.expression) (E.post self.now.expression) (L.pre self.now.locals) (L.post self.now.locals) }
        ensures { Gives (λ x. (x.0, x.1.now)) result (steps.if_head_at (within.expression_within self.now.levels self.now.room) tokens.now) }
    {
        let (test, rest) = self.inner(tokens)?;
        let rest = after(rest, Mark::Then)?;
        let (yes, rest) = self.inner(rest)?;
        let rest = after(rest, Mark::Else)?;
        Ok((Head::If(test, yes), rest))
    }

    // `\` apat+ `->` | `let` locals `in` | `if` exp `then` exp `else`
    #[tactic(auto, unfolding(rw_parser_parts::specs::Steps::head_at))]
    fn head<'a>(&self, tokens: &'a [Lexeme]) -> Result<(Head, &'a [Lexeme]), Unread>
        requires { Nests self.now.levels (E.pre self.now.expression) (E.post self.now.expression) (L.pre self.now.locals) (L.post self.now.locals) }
        ensures { Gives (λ x. (x.0, x.1.now)) result (inside.head_inside self.now.levels self.now.room tokens.now) }
    {
        if sees(tokens, Mark::Backslash) {
            lambda_head(self.alloc, rest_of(tokens))
        } else if sees(tokens, Mark::Let) {
            self.let_head(rest_of(tokens))
        } else {
            self.if_head(rest_of(tokens))
        }
    }

    // (operand op)* up to a lambda, a `let` or an `if`, or (operand op)* operand
    fn links<'a>(&self, tokens: &'a [Lexeme]) -> Result<(Chain, &'a [Lexeme]), Unread>
        requires { Nests self.now.levels (E.pre self.now.expression) (E.post self.now.expression) (L.pre self.now.locals) (L.post self.now.locals) }
        ensures { Gives (λ x. (x.0, x.1.now)) result (steps.links_at (inside.operand_inside self.now.levels self.now.room) (length tokens.now) tokens.now) }
    {
        let mut operands = Items::new(self.alloc);
        let mut operators = Items::new(self.alloc);
        let mut rest = tokens;
        for _turn in 0..tokens.len() {
            if begins_last(rest) {
                let is_open = true;
                return Ok((
                    Chain {
                        operands,
                        operators,
                        is_open,
                    },
                    rest,
                ));
            }
            let (one, behind) = self.operand(rest)?;
            operands.push(one)?;
            if !begins_op(behind) {
                let is_open = false;
                return Ok((
                    Chain {
                        operands,
                        operators,
                        is_open,
                    },
                    behind,
                ));
            }
            let (between, next) = op(self.alloc, behind)?;
            operators.push(between)?;
            rest = next;
        }
        Err(Unread::Refused(NotSpelled))
    }

    // exp ::= (operand op)* last, or that up to the last part of a lambda, a `let` or an `if`
    #[tactic(auto, unfolding(rw_parser_parts::specs::Steps::step_at))]
    pub fn step<'a>(&self, tokens: &'a [Lexeme]) -> Result<(Step, &'a [Lexeme]), Unread>
        requires { Nests self.now.levels (E.pre self.now.expression) (E.post self.now.expression) (L.pre self.now.locals) (L.post self.now.locals) }
        ensures { Gives (λ x. (x.0, x.1.now)) result (inside.step_inside self.now.levels self.now.room tokens.now) }
    {
        let (chain, rest) = self.links(tokens)?;
        let Chain {
            operands,
            operators,
            is_open,
        } = chain;
        if !is_open {
            let span = span_of(tokens, rest);
            return Ok((Step::Whole(chained(span, operands, operators)), rest));
        }
        let (head, behind) = self.head(rest)?;
        let frame = Frame {
            at: next_spot(tokens),
            operands,
            operators,
            head_at: next_spot(rest),
            head,
        };
        Ok((Step::Opens(frame), behind))
    }
}
