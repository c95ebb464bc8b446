// The layout of a whole source. At each turn what was emitted, put before what is to come, is the whole.
ghost use Rattle.rw_base.specs.Answers.{Answers};
ghost use Rattle.rw_layout.specs.Layout.{layout_of};

use crate::step::Layout;
use rw_base::{Fail, Place};
use rw_lex::Token;
use std::alloc::Global;

/// The tokens of a source with the braces and semicolons that its layout stands for (Haskell 2010 Report, section 10.3,
/// in this project's profile).
///
/// `tokens` are those of a source, in order; of each, its column and whether it is the first of its line are looked at.
/// Inserted braces and semicolons are `Special` tokens with the place of the next token (of the last one where there is
/// no next, 1:1 where there is none), and not the first of their line. The answer is `Refused` by E04 exactly where a
/// token closes nothing of its kind or makes the stack of blocks and openers higher than 128, at that token, or where an
/// opener is left at the end, at the lowest one.
pub fn lay_out(alloc: Global, tokens: &[Token]) -> Result<Vec<Token>, Fail>
    // The tokens are the layout of those that are given, and the refusal is its refusal.
    ensures { Answers (λ found. found.items) result (layout_of tokens.now) }
{
    let mut layout = Layout::new(alloc);
    let mut last = Place::START;
    for token in tokens {
        layout.take(alloc, token)?;
        last = token.at;
    }
    layout.end(alloc, last)
}
