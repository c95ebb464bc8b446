// Local declarations (Haskell 2010 Report, sections 3.12 and 4.4.3).
ghost use Rattle.std.specs.Prelude.{◌≡◌};
ghost use Rattle.rw_parser_grammar.specs.Clauses as grammar;
ghost use Rattle.rw_parser_reading.specs.ReadClauses as spec;
ghost use Rattle.rw_base.specs.Answers.{Gives};
ghost use Rattle.rw_parser_parts.specs.Nests.{Nests};
ghost use Rattle.rw_parser_parts.specs.Within as within;
ghost use Rattle.rw_parser_clauses.specs.Inside as inside;

use crate::clause::alone;
use crate::inside::Inside;
use rw_base::{Name, NotSpelled, Span, Unread};
use rw_parser_grammar::{Bound, Lexeme, Mark};
use rw_parser_parts::{
    begins_binding, begins_infix, begins_signature, join, read_binding, read_block, read_signature,
    span_of,
};
use rw_parser_patterns::after;
use rw_tree::{Alt, Expr, Local};
use sqlite_items::Items;
use std::alloc::Global;

// `$` is always application.
fn may_be_local(name: &Name) -> bool
    ensures { result ≡ grammar.may_be_local name.now }
{
    name.as_slice() != b"$".as_slice()
}

impl<E, L> Inside<E, L>
where
    E: Fn(Global, usize, usize, &[Lexeme]) -> Result<(Expr<Span>, &[Lexeme]), Unread>,
    L: Fn(Global, usize, usize, &[Lexeme]) -> Result<(Items<Local<Span>>, &[Lexeme]), Unread>,
{
    // var `::` type
    #[tactic(auto, unfolding(rw_parser_reading::specs::ReadClauses::local_signature_at))]
    fn local_signature<'a>(&self, tokens: &'a [Lexeme]) -> Result<(Bound, &'a [Lexeme]), Unread>
        requires { Nests self.now.levels (E.pre self.now.expression) (E.post self.now.expression) (L.pre self.now.locals) (L.post self.now.locals) }
        ensures { Gives (λ x. (x.0, x.1.now)) result (spec.local_signature_at within.any_binding_at (within.signature_within self.now.room) (inside.clause_inside self.now.levels self.now.room) (within.expression_within self.now.levels self.now.room) (within.locals_within self.now.levels self.now.room) tokens.now) }
    {
        match tokens {
            [Lexeme::Variable(_, name), rest @ ..] => {
                let rest = after(rest, Mark::Colons)?;
                let (written, rest) = read_signature(self.alloc, self.room, rest)?;
                let name = name.copied(self.alloc)?;
                Ok((
                    Bound::Whole(Local::Sig(span_of(tokens, rest), name, written)),
                    rest,
                ))
            }
            _ => Err(Unread::Refused(NotSpelled)),
        }
    }

    // clause, if a local one may bind its name
    #[tactic(auto, unfolding(rw_parser_reading::specs::ReadClauses::local_clause_at))]
    fn local_clause<'a>(&self, tokens: &'a [Lexeme]) -> Result<(Bound, &'a [Lexeme]), Unread>
        requires { Nests self.now.levels (E.pre self.now.expression) (E.post self.now.expression) (L.pre self.now.locals) (L.post self.now.locals) }
        ensures { Gives (λ x. (x.0, x.1.now)) result (spec.local_clause_at within.any_binding_at (within.signature_within self.now.room) (inside.clause_inside self.now.levels self.now.room) (within.expression_within self.now.levels self.now.room) (within.locals_within self.now.levels self.now.room) tokens.now) }
    {
        let ((name, row), rest) = self.clause(tokens)?;
        if !may_be_local(&name) {
            return Err(Unread::Refused(NotSpelled));
        }
        Ok((Bound::Clause(name, row), rest))
    }

    // ppat rhs [`where` locals]
    #[tactic(auto, unfolding(rw_parser_reading::specs::ReadClauses::local_pattern_at))]
    fn local_pattern<'a>(&self, tokens: &'a [Lexeme]) -> Result<(Bound, &'a [Lexeme]), Unread>
        requires { Nests self.now.levels (E.pre self.now.expression) (E.post self.now.expression) (L.pre self.now.locals) (L.post self.now.locals) }
        ensures { Gives (λ x. (x.0, x.1.now)) result (spec.local_pattern_at within.any_binding_at (within.signature_within self.now.room) (inside.clause_inside self.now.levels self.now.room) (within.expression_within self.now.levels self.now.room) (within.locals_within self.now.levels self.now.room) tokens.now) }
    {
        let (pat, rest) = read_binding(self.alloc, tokens)?;
        let (rhs, rest) = self.right_side(Mark::Equal, rest)?;
        let (wheres, rest) = self.wheres(rest)?;
        let at = span_of(tokens, rest);
        let pats = alone(self.alloc, pat)?;
        Ok((
            Bound::Whole(Local::Pattern(
                at,
                Alt {
                    at,
                    pats,
                    rhs,
                    wheres,
                },
            )),
            rest,
        ))
    }

    // local ::= var `::` type | clause | ppat rhs [`where` locals]
    #[tactic(auto, unfolding(rw_parser_reading::specs::ReadClauses::local_at))]
    fn local<'a>(&self, tokens: &'a [Lexeme]) -> Result<(Bound, &'a [Lexeme]), Unread>
        requires { Nests self.now.levels (E.pre self.now.expression) (E.post self.now.expression) (L.pre self.now.locals) (L.post self.now.locals) }
        ensures { Gives (λ x. (x.0, x.1.now)) result (inside.local_inside self.now.levels self.now.room tokens.now) }
    {
        if begins_signature(tokens) {
            self.local_signature(tokens)
        } else if !begins_infix(tokens) && begins_binding(tokens) {
            self.local_pattern(tokens)
        } else {
            self.local_clause(tokens)
        }
    }

    // locals ::= `{` local (`;` local)* `}`, where a local may be nothing
    #[tactic(auto, unfolding(rw_parser_reading::specs::ReadClauses::locals_over_at))]
    pub fn locals_over<'a>(
        &self,
        tokens: &'a [Lexeme],
    ) -> Result<(Items<Local<Span>>, &'a [Lexeme]), Unread>
        requires { Nests self.now.levels (E.pre self.now.expression) (E.post self.now.expression) (L.pre self.now.locals) (L.post self.now.locals) }
        ensures { Gives (λ x. (x.0, x.1.now)) result (spec.locals_over_at (inside.local_inside self.now.levels self.now.room) tokens.now) }
    {
        let (entries, rest) = read_block(self.alloc, |one| self.local(one), tokens)?;
        Ok((join(self.alloc, entries)?, rest))
    }
}
