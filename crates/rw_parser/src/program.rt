// The items of a program, run after run: what is kept of them, or the place of the first run that spells none.
ghost use Rattle.std.specs.Prelude.{◌≡◌, ◌+◌, ◌<◌, ◌≤◌, ℕ, List, ◌∷◌, length, take, drop, Some};
ghost use Rattle.rw_base.specs.declared.fail.Failure.TheVariants as fail;
ghost use Rattle.rw_base.specs.declared.rule.Rule.TheVariants as rule;
ghost use Rattle.rw_parser_grammar.specs.declared.lexeme.Lexeme.{Lexeme};
ghost use Rattle.rw_parser_grammar.specs.Grammar.{whole_run};
ghost use Rattle.rw_parser_reading.specs.ReadProgram as spec;
ghost use Rattle.rw_base.specs.Answers.{Gives};
ghost use Rattle.rw_parser.specs.Shallow.{kept_behind, nothing};
ghost use Rattle.rw_parser.specs.Clauses.{ReadsClauses};
ghost use Rattle.rw_parser.specs.Reading.{KeepsAll, KeepsRun, run_kept};

use crate::item::read_item;
use crate::{Kept, run_length, tokens_from, with_kept};
use rw_base::{Fail, Name, NotSpelled, Place, Refusal, Rule, Span, Unread};
use rw_parser_grammar::{Item, Lexeme, Mark, Spot};
use rw_parser_patterns::{next_spot, same_mark};
use rw_tree::Alt;
use sqlite_items::Items;
use std::alloc::Global;

// The same mark at the same spot.
fn is_mark_at(spot: Spot, mark: Mark, token: &Lexeme) -> bool
    ensures { result ≡ spec.is_mark_at spot mark token.now }
{
    match token {
        Lexeme::Mark(other, found) => {
            (spot.number == other.number
                && (spot.place.line == other.place.line && spot.place.column == other.place.column))
                && same_mark(mark, *found)
        }
        _ => false,
    }
}

// The tokens behind an item are the one that ends its run, and no others.
fn is_last(end: &Lexeme, rest: &[Lexeme]) -> bool
    ensures { result ≡ spec.is_last end.now rest.now }
{
    let Lexeme::Mark(spot, mark) = end else {
        return false;
    };
    match rest {
        [token] => is_mark_at(*spot, *mark, token),
        _ => false,
    }
}

// The item of one run, with the token that ends it, if the item is kept: it goes on to that token.
fn run_item<R: Fn(&[Lexeme]) -> Result<(Option<(Name, Alt<Span>)>, &[Lexeme]), Unread>>(
    alloc: Global,
    clause: &R,
    tokens: &[Lexeme],
    end: &Lexeme,
) -> Result<Option<Item>, Unread>
    requires { R.IsAlwaysCallable clause.now }
    ensures { ReadsClauses (R.post clause.now) → (n : ℕ) (run : List Lexeme) → tokens.now ≡ whole_run run end.now → length tokens.now ≤ n → Gives (λ item. item) result (run_kept n run end.now) }
{
    let (item, rest) = read_item(alloc, clause, tokens)?;
    if is_last(end, rest) {
        Ok(item)
    } else {
        Err(Unread::Refused(NotSpelled))
    }
}

/// A source that is not of the grammar, at this place.
pub fn broken(place: Place) -> Fail
    ensures { result ≡ fail.Refused (record { rule = rule.E05; place = place }) }
{
    Fail::Refused(Refusal {
        rule: Rule::E05,
        place,
    })
}

// The first `run` tokens, and the one that ends them, behind what is kept. A run of nothing is no item.
fn with_run<R: Fn(&[Lexeme]) -> Result<(Option<(Name, Alt<Span>)>, &[Lexeme]), Unread>>(
    alloc: Global,
    clause: &R,
    kept: Kept,
    tokens: &[Lexeme],
    run: usize,
) -> Result<Kept, Fail>
    requires callable { R.IsAlwaysCallable clause.now }
    requires within { run < length tokens.now }
    ensures { ReadsClauses (R.post clause.now) → (n : ℕ) (end : Lexeme) → run < n → drop run tokens.now ≡ end ∷ drop (run + 1) tokens.now → KeepsRun n (take run tokens.now, end) kept result }
{
    if run == 0 {
        return Ok(kept);
    }
    let place = next_spot(tokens).place;
    match run_item(alloc, clause, &tokens[..run + 1], &tokens[run]) {
        Ok(item) => Ok(with_kept(alloc, kept, place, item)?),
        Err(Unread::Refused(_)) => Err(broken(place)),
        Err(Unread::OutOfMemory) => Err(Fail::OutOfMemory),
    }
}

/// What is kept of the items behind the outer opening brace, or E05 at the first run of tokens that spells none. Each
/// run is looked at twice: once for where it ends, and once by the reader of its item.
pub fn read_runs<R: Fn(&[Lexeme]) -> Result<(Option<(Name, Alt<Span>)>, &[Lexeme]), Unread>>(
    alloc: Global,
    clause: &R,
    tokens: &[Lexeme],
) -> Result<Kept, Fail>
    requires { R.IsAlwaysCallable clause.now }
    ensures { ReadsClauses (R.post clause.now) → (n : ℕ) (runs : List (List Lexeme × Lexeme)) → length tokens.now ≤ n → spec.runs_at (length tokens.now) tokens.now ≡ Some runs → KeepsAll result (kept_behind nothing (spec.items_at n runs)) }
{
    let mut kept = ((Items::new(alloc), None), None);
    let mut rest = tokens;
    while let Some(run) = run_length(rest) {
        kept = with_run(alloc, clause, kept, rest, run)?;
        rest = tokens_from(rest, run + 1);
    }
    Ok(kept)
}
