// Operands: names, groups in parentheses, applications, `case` and `do` (Haskell 2010 Report, sections 3.2, 3.3, 3.8,
// 3.9, 3.13 and 3.14).
ghost use Rattle.std.specs.Prelude.{◌≡◌, length, IfOk};
ghost use Rattle.rw_parser_grammar.specs.declared.lexeme.Mark.TheVariants as m;
ghost use Rattle.rw_parser_grammar.specs.Expressions as grammar;
ghost use Rattle.rw_parser_reading.specs.Read.{separated_at};
ghost use Rattle.rw_parser_reading.specs.ReadExpressions as spec;
ghost use Rattle.rw_parser_reading.specs.ReadClauses.{statements_at};
ghost use Rattle.rw_base.specs.Answers.{Gives};
ghost use Rattle.rw_parser_parts.specs.Nests.{Nests};
ghost use Rattle.rw_parser_parts.specs.Within as within;
ghost use Rattle.rw_parser_clauses.specs.Inside as inside;

use crate::inside::Inside;
use rw_base::{NotSpelled, OutOfMemory, Span, Unread};
use rw_parser_grammar::{Lexeme, Mark, Spot};
use rw_parser_parts::{begins_aexp, begins_operator, span_of};
use rw_parser_patterns::{after, few, rest_of, same_mark, sees, span_at};
use rw_tree::{Expr, Local};
use sqlite_items::{Boxed, Items};
use std::alloc::Global;

// One expression in parentheses is itself.
fn grouped(span: Span, mut parts: Items<Expr<Span>>) -> Expr<Span>
    ensures { result ≡ grammar.grouped_expression span parts }
{
    if parts.len() == 1 {
        parts.remove(0)
    } else {
        Expr::Tuple(span, parts)
    }
}

// An expression without arguments is itself.
fn applied(
    alloc: Global,
    span: Span,
    head: Expr<Span>,
    parts: Items<Expr<Span>>,
) -> Result<Expr<Span>, OutOfMemory>
    ensures { IfOk result (λ made. made ≡ grammar.applied_expression span head parts) }
{
    if parts.is_empty() {
        return Ok(head);
    }
    Ok(Expr::Apply(span, Boxed::new(alloc, head)?, parts))
}

impl<E, L> Inside<E, L>
where
    E: Fn(Global, usize, usize, &[Lexeme]) -> Result<(Expr<Span>, &[Lexeme]), Unread>,
    L: Fn(Global, usize, usize, &[Lexeme]) -> Result<(Items<Local<Span>>, &[Lexeme]), Unread>,
{
    // exp (`,` exp)*
    fn expressions<'a>(
        &self,
        tokens: &'a [Lexeme],
    ) -> Result<(Items<Expr<Span>>, &'a [Lexeme]), Unread>
        requires { Nests self.now.levels (E.pre self.now.expression) (E.post self.now.expression) (L.pre self.now.locals) (L.post self.now.locals) }
        ensures { Gives (λ x. (x.0, x.1.now)) result (separated_at m.Comma (within.expression_within self.now.levels self.now.room) (length tokens.now) tokens.now) }
    {
        let mut all = Items::new(self.alloc);
        let mut rest = tokens;
        for _turn in 0..tokens.len() {
            let (one, behind) = self.inner(rest)?;
            all.push(one)?;
            if !sees(behind, Mark::Comma) {
                return Ok((all, behind));
            }
            rest = rest_of(behind);
        }
        Err(Unread::Refused(NotSpelled))
    }

    // exp (`,` exp)* `)`, at most 8, behind an opening parenthesis at this spot
    #[tactic(auto, unfolding(rw_parser_reading::specs::ReadExpressions::some_expressions_at))]
    fn some_expressions<'a>(
        &self,
        at: Spot,
        tokens: &'a [Lexeme],
    ) -> Result<(Expr<Span>, &'a [Lexeme]), Unread>
        requires { Nests self.now.levels (E.pre self.now.expression) (E.post self.now.expression) (L.pre self.now.locals) (L.post self.now.locals) }
        ensures { Gives (λ x. (x.0, x.1.now)) result (spec.some_expressions_at (within.expression_within self.now.levels self.now.room) at tokens.now) }
    {
        let (parts, rest) = self.expressions(tokens)?;
        let rest = after(rest, Mark::Closes)?;
        if !few(parts.len()) {
            return Err(Unread::Refused(NotSpelled));
        }
        Ok((grouped(span_at(at, rest), parts), rest))
    }

    // Operator `)`
    #[tactic(auto, unfolding(rw_parser_reading::specs::ReadExpressions::operator_group_at))]
    fn operator_group<'a>(&self, tokens: &'a [Lexeme]) -> Result<(Expr<Span>, &'a [Lexeme]), Unread>
        ensures { Gives (λ x. (x.0, x.1.now)) result (spec.operator_group_at (within.expression_within self.now.levels self.now.room) tokens.now) }
    {
        match tokens {
            [Lexeme::Operator(at, name), rest @ ..] => {
                let behind = after(rest, Mark::Closes)?;
                Ok((
                    Expr::Var(span_at(*at, rest), name.copied(self.alloc)?),
                    behind,
                ))
            }
            _ => Err(Unread::Refused(NotSpelled)),
        }
    }

    // Behind an opening parenthesis: `)` | Operator `)` | exp (`,` exp)* `)`
    #[tactic(auto, unfolding(rw_parser_reading::specs::ReadExpressions::group_at))]
    fn group<'a>(
        &self,
        at: Spot,
        tokens: &'a [Lexeme],
    ) -> Result<(Expr<Span>, &'a [Lexeme]), Unread>
        requires { Nests self.now.levels (E.pre self.now.expression) (E.post self.now.expression) (L.pre self.now.locals) (L.post self.now.locals) }
        ensures { Gives (λ x. (x.0, x.1.now)) result (spec.group_at (within.expression_within self.now.levels self.now.room) at tokens.now) }
    {
        if sees(tokens, Mark::Closes) {
            let rest = rest_of(tokens);
            return Ok((Expr::Tuple(span_at(at, rest), Items::new(self.alloc)), rest));
        }
        if begins_operator(tokens) {
            self.operator_group(tokens)
        } else {
            self.some_expressions(at, tokens)
        }
    }

    // aexp ::= vname | Con | `(` `)` | `(` exp (`,` exp)* `)`
    fn aexp<'a>(&self, tokens: &'a [Lexeme]) -> Result<(Expr<Span>, &'a [Lexeme]), Unread>
        requires { Nests self.now.levels (E.pre self.now.expression) (E.post self.now.expression) (L.pre self.now.locals) (L.post self.now.locals) }
        ensures { Gives (λ x. (x.0, x.1.now)) result (spec.aexp_at (within.expression_within self.now.levels self.now.room) tokens.now) }
    {
        match tokens {
            [Lexeme::Mark(at, mark), rest @ ..] => {
                if same_mark(*mark, Mark::Opens) {
                    self.group(*at, rest)
                } else {
                    Err(Unread::Refused(NotSpelled))
                }
            }
            [Lexeme::Variable(at, name), rest @ ..] => {
                Ok((
                    Expr::Var(span_at(*at, rest), name.copied(self.alloc)?),
                    rest,
                ))
            }
            [Lexeme::Constructor(at, name), rest @ ..] => {
                Ok((
                    Expr::Con(span_at(*at, rest), name.copied(self.alloc)?),
                    rest,
                ))
            }
            _ => Err(Unread::Refused(NotSpelled)),
        }
    }

    // aexp*
    #[tactic(auto, unfolding(rw_parser_reading::specs::ReadExpressions::aexps_at))]
    fn aexps<'a>(&self, tokens: &'a [Lexeme]) -> Result<(Items<Expr<Span>>, &'a [Lexeme]), Unread>
        requires { Nests self.now.levels (E.pre self.now.expression) (E.post self.now.expression) (L.pre self.now.locals) (L.post self.now.locals) }
        ensures { Gives (λ x. (x.0, x.1.now)) result (spec.aexps_at (within.expression_within self.now.levels self.now.room) tokens.now) }
    {
        let mut all = Items::new(self.alloc);
        let mut rest = tokens;
        for _turn in 0..tokens.len() {
            if !begins_aexp(rest) {
                break;
            }
            let (one, behind) = self.aexp(rest)?;
            all.push(one)?;
            rest = behind;
        }
        Ok((all, rest))
    }

    // aexp+
    #[tactic(auto, unfolding(rw_parser_reading::specs::ReadExpressions::application_at))]
    fn application<'a>(&self, tokens: &'a [Lexeme]) -> Result<(Expr<Span>, &'a [Lexeme]), Unread>
        requires { Nests self.now.levels (E.pre self.now.expression) (E.post self.now.expression) (L.pre self.now.locals) (L.post self.now.locals) }
        ensures { Gives (λ x. (x.0, x.1.now)) result (spec.application_at (within.expression_within self.now.levels self.now.room) tokens.now) }
    {
        let (head, rest) = self.aexp(tokens)?;
        let (parts, rest) = self.aexps(rest)?;
        Ok((
            applied(self.alloc, span_of(tokens, rest), head, parts)?,
            rest,
        ))
    }

    // `case` exp `of` alternatives
    #[tactic(auto, unfolding(rw_parser_reading::specs::ReadExpressions::case_at))]
    fn case<'a>(&self, tokens: &'a [Lexeme]) -> Result<(Expr<Span>, &'a [Lexeme]), Unread>
        requires { Nests self.now.levels (E.pre self.now.expression) (E.post self.now.expression) (L.pre self.now.locals) (L.post self.now.locals) }
        ensures { Gives (λ x. (x.0, x.1.now)) result (spec.case_at (within.expression_within self.now.levels self.now.room) (within.alternatives_within (within.expression_within self.now.levels self.now.room)) (statements_at (inside.statement_inside self.now.levels self.now.room)) tokens.now) }
    {
        let (scrutinee, rest) = self.inner(rest_of(tokens))?;
        let rest = after(rest, Mark::Of)?;
        let (rows, rest) = self.alternatives(rest)?;
        let scrutinee = Boxed::new(self.alloc, scrutinee)?;
        Ok((Expr::Case(span_of(tokens, rest), scrutinee, rows), rest))
    }

    // `do` statements
    #[tactic(auto, unfolding(rw_parser_reading::specs::ReadExpressions::do_at))]
    fn do_block<'a>(&self, tokens: &'a [Lexeme]) -> Result<(Expr<Span>, &'a [Lexeme]), Unread>
        requires { Nests self.now.levels (E.pre self.now.expression) (E.post self.now.expression) (L.pre self.now.locals) (L.post self.now.locals) }
        ensures { Gives (λ x. (x.0, x.1.now)) result (spec.do_at (within.expression_within self.now.levels self.now.room) (within.alternatives_within (within.expression_within self.now.levels self.now.room)) (statements_at (inside.statement_inside self.now.levels self.now.room)) tokens.now) }
    {
        let (statements, rest) = self.statements(rest_of(tokens))?;
        Ok((Expr::Do(span_of(tokens, rest), statements), rest))
    }

    // operand ::= aexp+ | `case` exp `of` alternatives | `do` statements
    #[tactic(auto, unfolding(rw_parser_reading::specs::ReadExpressions::operand_at))]
    pub fn operand<'a>(&self, tokens: &'a [Lexeme]) -> Result<(Expr<Span>, &'a [Lexeme]), Unread>
        requires { Nests self.now.levels (E.pre self.now.expression) (E.post self.now.expression) (L.pre self.now.locals) (L.post self.now.locals) }
        ensures { Gives (λ x. (x.0, x.1.now)) result (inside.operand_inside self.now.levels self.now.room tokens.now) }
    {
        if sees(tokens, Mark::Case) {
            self.case(tokens)
        } else if sees(tokens, Mark::Do) {
            self.do_block(tokens)
        } else {
            self.application(tokens)
        }
    }
}
