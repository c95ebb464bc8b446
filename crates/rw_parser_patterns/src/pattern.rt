// Patterns, by descent with one token of lookahead (Haskell 2010 Report, section 3.17). The grammar rule stands above
// each function.
ghost use Rattle.std.specs.Prelude.{◌≡◌, ◌<◌, ◌≤◌, suc, length, ℕ, IfOk};
ghost use Rattle.rw_parser_reading.specs.Read.{separated_at};
ghost use Rattle.rw_parser_reading.specs.ReadTypes as spec;
ghost use Rattle.rw_parser_grammar.specs.Patterns as grammar;
ghost use Rattle.rw_parser_grammar.specs.declared.lexeme.Mark.TheVariants as m;
ghost use Rattle.rw_base.specs.Answers.{Gives};
ghost use Rattle.rw_parser_patterns.specs.Depth.{any_pattern_at};

use crate::token::{after, few, rest_of, same_mark, sees, span_at};
use rw_base::{Name, NotSpelled, Span, Unread};
use rw_parser_grammar::{Lexeme, Mark, Spot};
use rw_tree::Pat;
use sqlite_items::Items;
use std::alloc::Global;

/// The pattern that the tokens begin with, and the tokens that follow it. It goes as far to the right as it can
/// (Haskell 2010 Report, section 3.17).
pub fn read_pattern(alloc: Global, tokens: &[Lexeme]) -> Result<(Pat<Span>, &[Lexeme]), Unread>
    ensures read { (n : ℕ) → length tokens.now ≤ n → Gives (λ x. (x.0, x.1.now)) result (spec.pattern_at n tokens.now) }
    ensures any { Gives (λ x. (x.0, x.1.now)) result (any_pattern_at tokens.now) }
    ensures shorter { IfOk result (λ x. length x.1.now < length tokens.now) }
{
    read_pat(alloc, tokens)
}

/// The pattern that the tokens begin with, of those that take no part without parentheses.
pub fn apat(alloc: Global, tokens: &[Lexeme]) -> Result<(Pat<Span>, &[Lexeme]), Unread>
    ensures read { (n : ℕ) → length tokens.now ≤ suc n → Gives (λ x. (x.0, x.1.now)) result (spec.apat_at (spec.pattern_at n) tokens.now) }
    ensures any { Gives (λ x. (x.0, x.1.now)) result (spec.apat_at any_pattern_at tokens.now) }
    ensures shorter { IfOk result (λ x. length x.1.now < length tokens.now) }
{
    read_apat(alloc, tokens)
}

/// As many of these as the tokens begin with.
pub fn apats(alloc: Global, tokens: &[Lexeme]) -> Result<(Items<Pat<Span>>, &[Lexeme]), Unread>
    ensures read { (n : ℕ) → length tokens.now ≤ suc n → Gives (λ x. (x.0, x.1.now)) result (spec.apats_at (spec.pattern_at n) tokens.now) }
    ensures any { Gives (λ x. (x.0, x.1.now)) result (spec.apats_at any_pattern_at tokens.now) }
    ensures shorter { IfOk result (λ x. length x.1.now ≤ length tokens.now) }
{
    read_apats(alloc, tokens)
}

/// One pattern or more, with a comma between two.
pub fn patterns(alloc: Global, tokens: &[Lexeme]) -> Result<(Items<Pat<Span>>, &[Lexeme]), Unread>
    ensures read { (n : ℕ) → length tokens.now ≤ n → Gives (λ x. (x.0, x.1.now)) result (separated_at m.Comma (spec.pattern_at n) (length tokens.now) tokens.now) }
    ensures any { Gives (λ x. (x.0, x.1.now)) result (separated_at m.Comma any_pattern_at (length tokens.now) tokens.now) }
    ensures shorter { IfOk result (λ x. length x.1.now < length tokens.now) }
{
    read_patterns(alloc, tokens)
}

// pat ::= apat | Con apat+
#[cycle(patterns)]
fn read_pat(alloc: Global, tokens: &[Lexeme]) -> Result<(Pat<Span>, &[Lexeme]), Unread>
    ensures read { Gives (λ x. (x.0, x.1.now)) result (spec.pattern_over_at any_pattern_at tokens.now) }
    ensures shorter { IfOk result (λ x. length x.1.now < length tokens.now) }
{
    match tokens {
        [Lexeme::Mark(at, mark), rest @ ..] => marked_pattern(alloc, *at, *mark, rest),
        [Lexeme::Variable(at, name), rest @ ..] => {
            Ok((Pat::Var(span_at(*at, rest), name.copied(alloc)?), rest))
        }
        [Lexeme::Constructor(at, name), rest @ ..] => built(alloc, *at, name, rest),
        _ => Err(Unread::Refused(NotSpelled)),
    }
}

// apat*, behind a constructor with this name at this spot
#[cycle(patterns)]
#[tactic(auto, unfolding(rw_parser_reading::specs::ReadTypes::built_at))]
fn built<'a>(
    alloc: Global,
    at: Spot,
    name: &Name,
    tokens: &'a [Lexeme],
) -> Result<(Pat<Span>, &'a [Lexeme]), Unread>
    ensures read { Gives (λ x. (x.0, x.1.now)) result (spec.built_at any_pattern_at at name.now tokens.now) }
    ensures shorter { IfOk result (λ x. length x.1.now ≤ length tokens.now) }
{
    let (parts, rest) = read_apats(alloc, tokens)?;
    Ok((
        Pat::Con(span_at(at, rest), name.copied(alloc)?, parts),
        rest,
    ))
}

pub fn begins_apat(tokens: &[Lexeme]) -> bool
    ensures { result ≡ spec.begins_apat tokens.now }
{
    match tokens {
        [Lexeme::Variable(_, _), ..] | [Lexeme::Constructor(_, _), ..] => true,
        _ => sees(tokens, Mark::Opens) || sees(tokens, Mark::Underscore),
    }
}

// apat*
#[cycle(patterns)]
#[tactic(auto, unfolding(rw_parser_reading::specs::ReadTypes::apats_at))]
fn read_apats(alloc: Global, tokens: &[Lexeme]) -> Result<(Items<Pat<Span>>, &[Lexeme]), Unread>
    ensures read { Gives (λ x. (x.0, x.1.now)) result (spec.apats_at any_pattern_at tokens.now) }
    ensures shorter { IfOk result (λ x. length x.1.now ≤ length tokens.now) }
{
    let mut all = Items::new(alloc);
    let mut rest = tokens;
    for _turn in 0..tokens.len() {
        if !begins_apat(rest) {
            break;
        }
        let (one, behind) = read_apat(alloc, rest)?;
        all.push(one)?;
        rest = behind;
    }
    Ok((all, rest))
}

// apat ::= var | `_` | Con | `(` `)` | `(` pat (`,` pat)* `)`
#[cycle(patterns)]
fn read_apat(alloc: Global, tokens: &[Lexeme]) -> Result<(Pat<Span>, &[Lexeme]), Unread>
    ensures read { Gives (λ x. (x.0, x.1.now)) result (spec.apat_at any_pattern_at tokens.now) }
    ensures shorter { IfOk result (λ x. length x.1.now < length tokens.now) }
{
    match tokens {
        [Lexeme::Mark(at, mark), rest @ ..] => marked_pattern(alloc, *at, *mark, rest),
        [Lexeme::Variable(at, name), rest @ ..] => {
            Ok((Pat::Var(span_at(*at, rest), name.copied(alloc)?), rest))
        }
        [Lexeme::Constructor(at, name), rest @ ..] => Ok((
            Pat::Con(span_at(*at, rest), name.copied(alloc)?, Items::new(alloc)),
            rest,
        )),
        _ => Err(Unread::Refused(NotSpelled)),
    }
}

// `_` | `(` `)` | `(` pat (`,` pat)* `)`, behind its first token
#[cycle(patterns)]
#[tactic(auto, unfolding(rw_parser_reading::specs::ReadTypes::marked_pattern_at))]
fn marked_pattern(
    alloc: Global,
    at: Spot,
    mark: Mark,
    tokens: &[Lexeme],
) -> Result<(Pat<Span>, &[Lexeme]), Unread>
    ensures read { Gives (λ x. (x.0, x.1.now)) result (spec.marked_pattern_at any_pattern_at at mark tokens.now) }
    ensures shorter { IfOk result (λ x. length x.1.now ≤ length tokens.now) }
{
    if same_mark(mark, Mark::Opens) {
        pattern_group(alloc, at, tokens)
    } else if same_mark(mark, Mark::Underscore) {
        Ok((Pat::Wild(span_at(at, tokens)), tokens))
    } else {
        Err(Unread::Refused(NotSpelled))
    }
}

// Behind an opening parenthesis: `)` | pat (`,` pat)* `)`
#[cycle(patterns)]
#[tactic(auto, unfolding(rw_parser_reading::specs::ReadTypes::pattern_group_at))]
fn pattern_group(
    alloc: Global,
    at: Spot,
    tokens: &[Lexeme],
) -> Result<(Pat<Span>, &[Lexeme]), Unread>
    ensures read { Gives (λ x. (x.0, x.1.now)) result (spec.pattern_group_at any_pattern_at at tokens.now) }
    ensures shorter { IfOk result (λ x. length x.1.now ≤ length tokens.now) }
{
    if sees(tokens, Mark::Closes) {
        let rest = rest_of(tokens);
        return Ok((Pat::Tuple(span_at(at, rest), Items::new(alloc)), rest));
    }
    some_patterns(alloc, at, tokens)
}

// pat (`,` pat)* `)`, at most 8
#[cycle(patterns)]
#[tactic(auto, unfolding(rw_parser_reading::specs::ReadTypes::some_patterns_at))]
fn some_patterns(
    alloc: Global,
    at: Spot,
    tokens: &[Lexeme],
) -> Result<(Pat<Span>, &[Lexeme]), Unread>
    ensures read { Gives (λ x. (x.0, x.1.now)) result (spec.some_patterns_at any_pattern_at at tokens.now) }
    ensures shorter { IfOk result (λ x. length x.1.now ≤ length tokens.now) }
{
    let (parts, rest) = read_patterns(alloc, tokens)?;
    let rest = after(rest, Mark::Closes)?;
    if !few(parts.len()) {
        return Err(Unread::Refused(NotSpelled));
    }
    Ok((grouped(span_at(at, rest), parts), rest))
}

// One pattern in parentheses is itself.
fn grouped(span: Span, mut parts: Items<Pat<Span>>) -> Pat<Span>
    ensures { result ≡ grammar.grouped_pattern span parts }
{
    if parts.len() == 1 {
        parts.remove(0)
    } else {
        Pat::Tuple(span, parts)
    }
}

// pat (`,` pat)*
#[cycle(patterns)]
fn read_patterns(alloc: Global, tokens: &[Lexeme]) -> Result<(Items<Pat<Span>>, &[Lexeme]), Unread>
    ensures read { Gives (λ x. (x.0, x.1.now)) result (separated_at m.Comma any_pattern_at (length tokens.now) tokens.now) }
    ensures shorter { IfOk result (λ x. length x.1.now < length tokens.now) }
{
    let mut all = Items::new(alloc);
    let mut rest = tokens;
    for _turn in 0..tokens.len() {
        let (one, behind) = read_pat(alloc, rest)?;
        all.push(one)?;
        if !sees(behind, Mark::Comma) {
            return Ok((all, behind));
        }
        rest = rest_of(behind);
    }
    Err(Unread::Refused(NotSpelled))
}
