// Clauses and alternatives (Haskell 2010 Report, sections 3.13 and 4.4.3).
ghost use Rattle.std.specs.Prelude.{◌≡◌, ◌∷◌, [], IfOk};
ghost use Rattle.rw_parser_reading.specs.ReadClauses as spec;
ghost use Rattle.rw_base.specs.Answers.{Gives};
ghost use Rattle.rw_parser_patterns.specs.Depth.{any_pattern_at};
ghost use Rattle.rw_parser_parts.specs.Nests.{Nests};
ghost use Rattle.rw_parser_parts.specs.Within as within;
ghost use Rattle.rw_parser_clauses.specs.Inside as inside;

use crate::inside::Inside;
use rw_base::{Name, NotSpelled, OutOfMemory, Span, Unread};
use rw_parser_grammar::{Lexeme, Mark};
use rw_parser_parts::{left_side, read_block, span_of};
use rw_parser_patterns::read_pattern;
use rw_tree::{Alt, Expr, Local, Pat};
use sqlite_items::Items;
use std::alloc::Global;

// A list of one.
pub fn alone(alloc: Global, pat: Pat<Span>) -> Result<Items<Pat<Span>>, OutOfMemory>
    ensures { IfOk result (λ made. made ≡ pat ∷ []) }
{
    let mut pats = Items::new(alloc);
    pats.push(pat)?;
    Ok(pats)
}

impl<E, L> Inside<E, L>
where
    E: Fn(Global, usize, usize, &[Lexeme]) -> Result<(Expr<Span>, &[Lexeme]), Unread>,
    L: Fn(Global, usize, usize, &[Lexeme]) -> Result<(Items<Local<Span>>, &[Lexeme]), Unread>,
{
    // clause ::= lhs rhs [`where` locals]: its name, and the rest as a row
    #[tactic(auto, unfolding(rw_parser_reading::specs::ReadClauses::clause_at))]
    pub fn clause<'a>(
        &self,
        tokens: &'a [Lexeme],
    ) -> Result<((Name, Alt<Span>), &'a [Lexeme]), Unread>
        requires { Nests self.now.levels (E.pre self.now.expression) (E.post self.now.expression) (L.pre self.now.locals) (L.post self.now.locals) }
        ensures { Gives (λ x. (x.0, x.1.now)) result (inside.clause_inside self.now.levels self.now.room tokens.now) }
    {
        let ((name, pats), rest) = left_side(self.alloc, tokens)?;
        let (rhs, rest) = self.right_side(Mark::Equal, rest)?;
        let (wheres, rest) = self.wheres(rest)?;
        let at = span_of(tokens, rest);
        Ok((
            (
                name,
                Alt {
                    at,
                    pats,
                    rhs,
                    wheres,
                },
            ),
            rest,
        ))
    }

    // alt ::= pat `->` exp | pat (`|` exp `->` exp)+
    #[tactic(auto, unfolding(rw_parser_reading::specs::ReadClauses::alternative_at))]
    fn alternative<'a>(&self, tokens: &'a [Lexeme]) -> Result<(Alt<Span>, &'a [Lexeme]), Unread>
        requires { Nests self.now.levels (E.pre self.now.expression) (E.post self.now.expression) (L.pre self.now.locals) (L.post self.now.locals) }
        ensures { Gives (λ x. (x.0, x.1.now)) result (spec.alternative_at any_pattern_at (within.expression_within self.now.levels self.now.room) tokens.now) }
    {
        let (pat, rest) = read_pattern(self.alloc, tokens)?;
        let (rhs, rest) = self.right_side(Mark::Arrow, rest)?;
        let at = span_of(tokens, rest);
        let pats = alone(self.alloc, pat)?;
        let wheres = Items::new(self.alloc);
        Ok((
            Alt {
                at,
                pats,
                rhs,
                wheres,
            },
            rest,
        ))
    }

    // The alternatives of a `case`: `{` alt (`;` alt)* `}`, of which one at least is not nothing
    #[tactic(auto, unfolding(rw_parser_reading::specs::ReadClauses::alternatives_at))]
    pub fn alternatives<'a>(
        &self,
        tokens: &'a [Lexeme],
    ) -> Result<(Items<Alt<Span>>, &'a [Lexeme]), Unread>
        requires { Nests self.now.levels (E.pre self.now.expression) (E.post self.now.expression) (L.pre self.now.locals) (L.post self.now.locals) }
        ensures { Gives (λ x. (x.0, x.1.now)) result (within.alternatives_within (within.expression_within self.now.levels self.now.room) tokens.now) }
    {
        let (rows, rest) = read_block(self.alloc, |one| self.alternative(one), tokens)?;
        if rows.is_empty() {
            return Err(Unread::Refused(NotSpelled));
        }
        Ok((rows, rest))
    }
}
