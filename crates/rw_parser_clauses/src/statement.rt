// Statements (Haskell 2010 Report, section 3.14).
ghost use Rattle.std.specs.Prelude.{◌≡◌, pred, IfOk};
ghost use Rattle.rw_parser_grammar.specs.Clauses as grammar;
ghost use Rattle.rw_parser_reading.specs.ReadClauses as spec;
ghost use Rattle.rw_base.specs.Answers.{Gives};
ghost use Rattle.rw_parser_patterns.specs.Depth.{any_pattern_at};
ghost use Rattle.rw_parser_parts.specs.Nests.{Nests};
ghost use Rattle.rw_parser_parts.specs.Within as within;
ghost use Rattle.rw_parser_clauses.specs.Inside as inside;
ghost use Rattle.rw_parser_clauses.specs.Last as last;

use crate::inside::Inside;
use rw_base::{NotSpelled, OutOfMemory, Span, Unread};
use rw_parser_grammar::{Lexeme, Mark};
use rw_parser_parts::{begins_bind, cut_off, read_block, span_of};
use rw_parser_patterns::{after, read_pattern, rest_of, sees};
use rw_tree::{Expr, Local, Stmt};
use sqlite_items::{Boxed, Items};
use std::alloc::Global;

// An expression alone.
#[tactic(auto, using(crate::proofs::Runs::run_tests))]
fn is_run(statement: &Stmt<Span>) -> bool
    ensures { result ≡ last.runs statement.now }
{
    match statement {
        Stmt::Run(_, _) => true,
        Stmt::Bind(_, _, _) | Stmt::Let(_, _) => false,
    }
}

// The last of the statements is an expression alone.
fn ends_in_run(statements: &[Stmt<Span>]) -> bool
    ensures { result ≡ grammar.ends_in_run statements.now }
{
    let mut ends = false;
    for statement in statements {
        ends = is_run(statement);
    }
    ends
}

// A `let` with its body, where there is room for it.
fn let_within(
    alloc: Global,
    room: usize,
    span: Span,
    locals: Items<Local<Span>>,
    body: Expr<Span>,
) -> Result<Expr<Span>, OutOfMemory>
    ensures { IfOk result (λ made. made ≡ within.let_within room span locals body) }
{
    if room == 0 {
        return Ok(cut_off(alloc));
    }
    Ok(Expr::Let(span, locals, Boxed::new(alloc, body)?))
}

impl<E, L> Inside<E, L>
where
    E: Fn(Global, usize, usize, &[Lexeme]) -> Result<(Expr<Span>, &[Lexeme]), Unread>,
    L: Fn(Global, usize, usize, &[Lexeme]) -> Result<(Items<Local<Span>>, &[Lexeme]), Unread>,
{
    // pat `<-` exp
    #[tactic(auto, unfolding(rw_parser_reading::specs::ReadClauses::bind_at))]
    fn bind<'a>(&self, tokens: &'a [Lexeme]) -> Result<(Stmt<Span>, &'a [Lexeme]), Unread>
        requires { Nests self.now.levels (E.pre self.now.expression) (E.post self.now.expression) (L.pre self.now.locals) (L.post self.now.locals) }
        ensures { Gives (λ x. (x.0, x.1.now)) result (spec.bind_at any_pattern_at (within.expression_within self.now.levels self.now.room) (within.locals_beneath self.now.levels self.now.room) (within.expression_beneath self.now.levels (pred self.now.room)) tokens.now) }
    {
        let (pat, rest) = read_pattern(self.alloc, tokens)?;
        let rest = after(rest, Mark::FromArrow)?;
        let (body, rest) = self.inner(rest)?;
        Ok((Stmt::Bind(span_of(tokens, rest), pat, body), rest))
    }

    // `let` locals [`in` exp]
    #[tactic(auto, unfolding(rw_parser_parts::specs::Within::let_statement_within))]
    fn let_statement<'a>(&self, tokens: &'a [Lexeme]) -> Result<(Stmt<Span>, &'a [Lexeme]), Unread>
        requires { Nests self.now.levels (E.pre self.now.expression) (E.post self.now.expression) (L.pre self.now.locals) (L.post self.now.locals) }
        ensures { Gives (λ x. (x.0, x.1.now)) result (within.let_statement_within self.now.room (within.expression_within self.now.levels self.now.room) (within.locals_beneath self.now.levels self.now.room) (within.expression_beneath self.now.levels (pred self.now.room)) tokens.now) }
    {
        let (locals, rest) = self.lower(rest_of(tokens))?;
        if !sees(rest, Mark::In) {
            return Ok((Stmt::Let(span_of(tokens, rest), locals), rest));
        }
        let (body, rest) = self.below(rest_of(rest))?;
        let span = span_of(tokens, rest);
        let whole = let_within(self.alloc, self.room, span, locals, body)?;
        Ok((Stmt::Run(span, whole), rest))
    }

    // exp
    #[tactic(auto, unfolding(rw_parser_reading::specs::ReadClauses::run_at))]
    fn run<'a>(&self, tokens: &'a [Lexeme]) -> Result<(Stmt<Span>, &'a [Lexeme]), Unread>
        requires { Nests self.now.levels (E.pre self.now.expression) (E.post self.now.expression) (L.pre self.now.locals) (L.post self.now.locals) }
        ensures { Gives (λ x. (x.0, x.1.now)) result (spec.run_at any_pattern_at (within.expression_within self.now.levels self.now.room) (within.locals_beneath self.now.levels self.now.room) (within.expression_beneath self.now.levels (pred self.now.room)) tokens.now) }
    {
        let (body, rest) = self.inner(tokens)?;
        Ok((Stmt::Run(span_of(tokens, rest), body), rest))
    }

    // stmt ::= pat `<-` exp | `let` locals | exp
    #[tactic(auto, unfolding(rw_parser_parts::specs::Within::statement_within))]
    fn statement<'a>(&self, tokens: &'a [Lexeme]) -> Result<(Stmt<Span>, &'a [Lexeme]), Unread>
        requires { Nests self.now.levels (E.pre self.now.expression) (E.post self.now.expression) (L.pre self.now.locals) (L.post self.now.locals) }
        ensures { Gives (λ x. (x.0, x.1.now)) result (inside.statement_inside self.now.levels self.now.room tokens.now) }
    {
        if begins_bind(tokens) {
            self.bind(tokens)
        } else if sees(tokens, Mark::Let) {
            self.let_statement(tokens)
        } else {
            self.run(tokens)
        }
    }

    // The statements of a `do`: `{` stmt (`;` stmt)* `}`, where a stmt may be nothing
    #[tactic(auto, unfolding(rw_parser_reading::specs::ReadClauses::statements_at))]
    pub fn statements<'a>(
        &self,
        tokens: &'a [Lexeme],
    ) -> Result<(Items<Stmt<Span>>, &'a [Lexeme]), Unread>
        requires { Nests self.now.levels (E.pre self.now.expression) (E.post self.now.expression) (L.pre self.now.locals) (L.post self.now.locals) }
        ensures { Gives (λ x. (x.0, x.1.now)) result (spec.statements_at (inside.statement_inside self.now.levels self.now.room) tokens.now) }
    {
        let (statements, rest) = read_block(self.alloc, |one| self.statement(one), tokens)?;
        if !ends_in_run(statements.as_slice()) {
            return Err(Unread::Refused(NotSpelled));
        }
        Ok((statements, rest))
    }
}
