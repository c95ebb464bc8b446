// Right sides and what follows `where` (Haskell 2010 Report, sections 3.13 and 4.4.3).
ghost use Rattle.std.specs.Prelude.{◌≡◌};
ghost use Rattle.rw_parser_reading.specs.ReadClauses as spec;
ghost use Rattle.rw_base.specs.Answers.{Gives};
ghost use Rattle.rw_parser_parts.specs.Nests.{Nests};
ghost use Rattle.rw_parser_parts.specs.Within as within;

use crate::inside::Inside;
use rw_base::{NotSpelled, Span, Unread};
use rw_parser_grammar::{Lexeme, Mark};
use rw_parser_patterns::{after, rest_of, sees};
use rw_tree::{Expr, Guard, Local, Rhs};
use sqlite_items::Items;
use std::alloc::Global;

impl<E, L> Inside<E, L>
where
    E: Fn(Global, usize, usize, &[Lexeme]) -> Result<(Expr<Span>, &[Lexeme]), Unread>,
    L: Fn(Global, usize, usize, &[Lexeme]) -> Result<(Items<Local<Span>>, &[Lexeme]), Unread>,
{
    // `|` exp arrow exp, where the arrow is `=` in a clause and `->` in an alternative
    #[tactic(auto, unfolding(rw_parser_reading::specs::ReadClauses::guard_at))]
    fn guard<'a>(
        &self,
        arrow: Mark,
        tokens: &'a [Lexeme],
    ) -> Result<(Guard<Span>, &'a [Lexeme]), Unread>
        requires { Nests self.now.levels (E.pre self.now.expression) (E.post self.now.expression) (L.pre self.now.locals) (L.post self.now.locals) }
        ensures { Gives (λ x. (x.0, x.1.now)) result (spec.guard_at arrow (within.expression_within self.now.levels self.now.room) tokens.now) }
    {
        let rest = after(tokens, Mark::Bar)?;
        let (test, rest) = self.inner(rest)?;
        let rest = after(rest, arrow)?;
        let (body, rest) = self.inner(rest)?;
        Ok((Guard { test, body }, rest))
    }

    // (`|` exp arrow exp)*
    #[tactic(auto, unfolding(rw_parser_reading::specs::ReadClauses::guards_at))]
    fn guards<'a>(
        &self,
        arrow: Mark,
        tokens: &'a [Lexeme],
    ) -> Result<(Items<Guard<Span>>, &'a [Lexeme]), Unread>
        requires { Nests self.now.levels (E.pre self.now.expression) (E.post self.now.expression) (L.pre self.now.locals) (L.post self.now.locals) }
        ensures { Gives (λ x. (x.0, x.1.now)) result (spec.guards_at arrow (within.expression_within self.now.levels self.now.room) tokens.now) }
    {
        let mut all = Items::new(self.alloc);
        let mut rest = tokens;
        for _turn in 0..tokens.len() {
            if !sees(rest, Mark::Bar) {
                break;
            }
            let (one, behind) = self.guard(arrow, rest)?;
            all.push(one)?;
            rest = behind;
        }
        Ok((all, rest))
    }

    // rhs ::= arrow exp | (`|` exp arrow exp)+
    #[tactic(auto, unfolding(rw_parser_reading::specs::ReadClauses::right_side_at))]
    pub fn right_side<'a>(
        &self,
        arrow: Mark,
        tokens: &'a [Lexeme],
    ) -> Result<(Rhs<Span>, &'a [Lexeme]), Unread>
        requires { Nests self.now.levels (E.pre self.now.expression) (E.post self.now.expression) (L.pre self.now.locals) (L.post self.now.locals) }
        ensures { Gives (λ x. (x.0, x.1.now)) result (spec.right_side_at arrow (within.expression_within self.now.levels self.now.room) tokens.now) }
    {
        if sees(tokens, Mark::Bar) {
            let (guards, rest) = self.guards(arrow, tokens)?;
            if guards.is_empty() {
                return Err(Unread::Refused(NotSpelled));
            }
            return Ok((Rhs::Guarded(guards), rest));
        }
        let rest = after(tokens, arrow)?;
        let (body, rest) = self.inner(rest)?;
        Ok((Rhs::Plain(body), rest))
    }

    // [`where` locals]
    #[tactic(auto, unfolding(rw_parser_reading::specs::ReadClauses::where_at))]
    pub fn wheres<'a>(
        &self,
        tokens: &'a [Lexeme],
    ) -> Result<(Items<Local<Span>>, &'a [Lexeme]), Unread>
        requires { Nests self.now.levels (E.pre self.now.expression) (E.post self.now.expression) (L.pre self.now.locals) (L.post self.now.locals) }
        ensures { Gives (λ x. (x.0, x.1.now)) result (spec.where_at (within.locals_within self.now.levels self.now.room) tokens.now) }
    {
        if sees(tokens, Mark::Where) {
            self.block(rest_of(tokens))
        } else {
            Ok((Items::new(self.alloc), tokens))
        }
    }
}
