// Patterns that take something apart, as a local declaration binds them (Haskell 2010 Report, section 4.4.3.2).
ghost use Rattle.std.specs.Prelude.{◌≡◌};
ghost use Rattle.rw_parser_reading.specs.ReadTypes.{apats_at};
ghost use Rattle.rw_parser_reading.specs.ReadClauses as spec;
ghost use Rattle.rw_parser_grammar.specs.Patterns as grammar;
ghost use Rattle.rw_base.specs.Answers.{Gives};
ghost use Rattle.rw_parser_patterns.specs.Depth.{any_pattern_at};
ghost use Rattle.rw_parser_parts.specs.Within as within;

use rw_base::{Name, NotSpelled, Span, Unread};
use rw_parser_grammar::{Lexeme, Mark, Spot};
use rw_parser_patterns::{after, apats, few, patterns, same_mark, span_at};
use rw_tree::Pat;
use sqlite_items::Items;
use std::alloc::Global;

// One pattern in parentheses is itself.
fn grouped(span: Span, mut parts: Items<Pat<Span>>) -> Pat<Span>
    ensures { result ≡ grammar.grouped_pattern span parts }
{
    if parts.len() == 1 {
        parts.remove(0)
    } else {
        Pat::Tuple(span, parts)
    }
}

// Not a variable, and not what matches everything.
fn takes_apart(pat: &Pat<Span>) -> bool
    ensures { result ≡ grammar.takes_apart pat.now }
{
    match pat {
        Pat::Con(_, _, _) | Pat::Tuple(_, _) => true,
        Pat::Wild(_) | Pat::Var(_, _) => false,
    }
}

// Behind an opening parenthesis: pat (`,` pat)* `)`, at most 8
#[tactic(auto, unfolding(rw_parser_reading::specs::ReadClauses::binding_group_at))]
fn binding_group<'a>(
    alloc: Global,
    at: Spot,
    tokens: &'a [Lexeme],
) -> Result<(Pat<Span>, &'a [Lexeme]), Unread>
    ensures { Gives (λ x. (x.0, x.1.now)) result (spec.binding_group_at any_pattern_at (apats_at any_pattern_at) at tokens.now) }
{
    let (parts, rest) = patterns(alloc, tokens)?;
    let rest = after(rest, Mark::Closes)?;
    if !few(parts.len()) {
        return Err(Unread::Refused(NotSpelled));
    }
    let pat = grouped(span_at(at, rest), parts);
    if !takes_apart(&pat) {
        return Err(Unread::Refused(NotSpelled));
    }
    Ok((pat, rest))
}

// apat*, behind a constructor with this name at this spot
#[tactic(auto, unfolding(rw_parser_reading::specs::ReadClauses::binding_built_at))]
fn built<'a>(
    alloc: Global,
    at: Spot,
    name: &Name,
    tokens: &'a [Lexeme],
) -> Result<(Pat<Span>, &'a [Lexeme]), Unread>
    ensures { Gives (λ x. (x.0, x.1.now)) result (spec.binding_built_at any_pattern_at (apats_at any_pattern_at) at name.now tokens.now) }
{
    let (parts, rest) = apats(alloc, tokens)?;
    Ok((
        Pat::Con(span_at(at, rest), name.copied(alloc)?, parts),
        rest,
    ))
}

// ppat ::= Con apat* | `(` pat (`,` pat)* `)`, if it takes something apart
pub fn read_binding(alloc: Global, tokens: &[Lexeme]) -> Result<(Pat<Span>, &[Lexeme]), Unread>
    ensures { Gives (λ x. (x.0, x.1.now)) result (within.any_binding_at tokens.now) }
{
    match tokens {
        [Lexeme::Mark(at, mark), rest @ ..] => {
            if same_mark(*mark, Mark::Opens) {
                binding_group(alloc, *at, rest)
            } else {
                Err(Unread::Refused(NotSpelled))
            }
        }
        [Lexeme::Constructor(at, name), rest @ ..] => built(alloc, *at, name, rest),
        _ => Err(Unread::Refused(NotSpelled)),
    }
}
