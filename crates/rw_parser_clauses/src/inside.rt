// The readers of what stands inside an expression or a block, as function values: so brackets and blocks alone go
// down, and each part of the grammar is read by a function that calls none that leads back to it.
ghost use Rattle.std.specs.Prelude.{◌≡◌, pred};
ghost use Rattle.rw_base.specs.Answers.{Gives};
ghost use Rattle.rw_parser_parts.specs.Nests.{Nests};
ghost use Rattle.rw_parser_parts.specs.Within as within;

use rw_base::{NotSpelled, Span, Unread};
use rw_parser_grammar::Lexeme;
use rw_tree::{Expr, Local};
use sqlite_items::Items;
use std::alloc::Global;

/// Readers of expressions and of blocks of local declarations. At most `levels` of these may stand inside one another,
/// and there is room for `room` frames.
#[derive(Drop)]
pub struct Inside<E, L> {
    pub alloc: Global,
    pub levels: usize,
    pub room: usize,
    pub expression: E,
    pub locals: L,
}

// One less, if there is one.
pub fn one_less(room: usize) -> usize
    ensures { result ≡ pred room }
{
    if room == 0 { 0 } else { room - 1 }
}

impl<E, L> Inside<E, L>
where
    E: Fn(Global, usize, usize, &[Lexeme]) -> Result<(Expr<Span>, &[Lexeme]), Unread>,
    L: Fn(Global, usize, usize, &[Lexeme]) -> Result<(Items<Local<Span>>, &[Lexeme]), Unread>,
{
    // An expression.
    pub fn inner<'a>(&self, tokens: &'a [Lexeme]) -> Result<(Expr<Span>, &'a [Lexeme]), Unread>
        requires { Nests self.now.levels (E.pre self.now.expression) (E.post self.now.expression) (L.pre self.now.locals) (L.post self.now.locals) }
        ensures { Gives (λ x. (x.0, x.1.now)) result (within.expression_within self.now.levels self.now.room tokens.now) }
    {
        (self.expression)(self.alloc, self.levels, self.room, tokens)
    }

    // A block of local declarations.
    pub fn block<'a>(
        &self,
        tokens: &'a [Lexeme],
    ) -> Result<(Items<Local<Span>>, &'a [Lexeme]), Unread>
        requires { Nests self.now.levels (E.pre self.now.expression) (E.post self.now.expression) (L.pre self.now.locals) (L.post self.now.locals) }
        ensures { Gives (λ x. (x.0, x.1.now)) result (within.locals_within self.now.levels self.now.room tokens.now) }
    {
        (self.locals)(self.alloc, self.levels, self.room, tokens)
    }

    // An expression in a frame, with one level less: the body of the `let` that a statement begins with.
    pub fn below<'a>(&self, tokens: &'a [Lexeme]) -> Result<(Expr<Span>, &'a [Lexeme]), Unread>
        requires { Nests self.now.levels (E.pre self.now.expression) (E.post self.now.expression) (L.pre self.now.locals) (L.post self.now.locals) }
        ensures { Gives (λ x. (x.0, x.1.now)) result (within.expression_beneath self.now.levels (pred self.now.room) tokens.now) }
    {
        if self.levels == 0 {
            return Err(Unread::Refused(NotSpelled));
        }
        (self.expression)(self.alloc, self.levels - 1, one_less(self.room), tokens)
    }

    // A block of local declarations, with one level less: that of the `let` that a statement begins with.
    pub fn lower<'a>(
        &self,
        tokens: &'a [Lexeme],
    ) -> Result<(Items<Local<Span>>, &'a [Lexeme]), Unread>
        requires { Nests self.now.levels (E.pre self.now.expression) (E.post self.now.expression) (L.pre self.now.locals) (L.post self.now.locals) }
        ensures { Gives (λ x. (x.0, x.1.now)) result (within.locals_beneath self.now.levels self.now.room tokens.now) }
    {
        if self.levels == 0 {
            return Err(Unread::Refused(NotSpelled));
        }
        (self.locals)(self.alloc, self.levels - 1, self.room, tokens)
    }
}
