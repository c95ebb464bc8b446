// Blocks of entries, over the reader of one.
ghost use Rattle.std.specs.Prelude.{length, List};
ghost use Rattle.rw_parser_grammar.specs.declared.lexeme.Lexeme.{Lexeme};
ghost use Rattle.rw_parser_reading.specs.Read.{Read, entries_at, block_at};
ghost use Rattle.rw_base.specs.Answers.{Gives};
ghost use Rattle.rw_parser_parts.specs.Nests.{Reads};

use rw_base::{NotSpelled, Unread};
use rw_parser_grammar::{Lexeme, Mark};
use rw_parser_patterns::{after, rest_of, sees};
use sqlite_items::Items;
use std::alloc::Global;

// one (`;` one)* `}`, where one may be nothing
fn entries<T: Drop, R: Fn(&[Lexeme]) -> Result<(T, &[Lexeme]), Unread>>(
    alloc: Global,
    one: R,
    tokens: &[Lexeme],
) -> Result<(Items<T>, &[Lexeme]), Unread>
    requires { R.IsAlwaysCallable one }
    ensures { (at : List Lexeme → Read T) → Reads (R.post one) at → Gives (λ x. (x.0, x.1.now)) result (entries_at at (length tokens.now) tokens.now) }
{
    let mut all = Items::new(alloc);
    let mut rest = tokens;
    for _turn in 0..tokens.len() {
        if sees(rest, Mark::ClosesBlock) {
            return Ok((all, rest_of(rest)));
        }
        if sees(rest, Mark::Semicolon) {
            rest = rest_of(rest);
        } else {
            let (entry, behind) = one(rest)?;
            all.push(entry)?;
            if sees(behind, Mark::ClosesBlock) {
                return Ok((all, rest_of(behind)));
            }
            rest = after(behind, Mark::Semicolon)?;
        }
    }
    Err(Unread::Refused(NotSpelled))
}

/// `{` one (`;` one)* `}`, where one may be nothing.
pub fn read_block<T: Drop, R: Fn(&[Lexeme]) -> Result<(T, &[Lexeme]), Unread>>(
    alloc: Global,
    one: R,
    tokens: &[Lexeme],
) -> Result<(Items<T>, &[Lexeme]), Unread>
    requires { R.IsAlwaysCallable one }
    ensures { (at : List Lexeme → Read T) → Reads (R.post one) at → Gives (λ x. (x.0, x.1.now)) result (block_at at tokens.now) }
{
    let rest = after(tokens, Mark::OpensBlock)?;
    entries(alloc, one, rest)
}
