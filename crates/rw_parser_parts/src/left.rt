// The left side of a clause (Haskell 2010 Report, section 4.4.3).
ghost use Rattle.std.specs.Prelude.{◌≡◌, [], ◌∷◌, IfOk};
ghost use Rattle.rw_parser_reading.specs.ReadTypes.{apats_at};
ghost use Rattle.rw_parser_reading.specs.ReadClauses as spec;
ghost use Rattle.rw_base.specs.Answers.{Gives};
ghost use Rattle.rw_parser_patterns.specs.Depth.{any_pattern_at};
ghost use Rattle.rw_parser_parts.specs.Within as within;

use crate::look::begins_infix;
use crate::name::variable_operator;
use rw_base::{Name, OutOfMemory, Span, Unread};
use rw_parser_grammar::Lexeme;
use rw_parser_patterns::{apats, read_pattern, variable_name};
use rw_tree::Pat;
use sqlite_items::Items;
use std::alloc::Global;

// vname apat*
#[tactic(auto, unfolding(rw_parser_reading::specs::ReadClauses::prefix_at))]
fn prefix(alloc: Global, tokens: &[Lexeme]) -> Result<((Name, Items<Pat<Span>>), &[Lexeme]), Unread>
    ensures { Gives (λ x. (x.0, x.1.now)) result (spec.prefix_at any_pattern_at (apats_at any_pattern_at) tokens.now) }
{
    let (named, rest) = variable_name(alloc, tokens)?;
    let (pats, rest) = apats(alloc, rest)?;
    let (_at, name) = named;
    Ok(((name, pats), rest))
}

// pat op pat, where op is a variable operator
#[tactic(auto, unfolding(rw_parser_reading::specs::ReadClauses::infix_at))]
fn infix(alloc: Global, tokens: &[Lexeme]) -> Result<((Name, Items<Pat<Span>>), &[Lexeme]), Unread>
    ensures { Gives (λ x. (x.0, x.1.now)) result (spec.infix_at any_pattern_at (apats_at any_pattern_at) tokens.now) }
{
    let (left, rest) = read_pattern(alloc, tokens)?;
    let (name, rest) = variable_operator(alloc, rest)?;
    let (right, rest) = read_pattern(alloc, rest)?;
    Ok(((name, pair(alloc, left, right)?), rest))
}

fn pair(alloc: Global, left: Pat<Span>, right: Pat<Span>) -> Result<Items<Pat<Span>>, OutOfMemory>
    ensures { IfOk result (λ made. made ≡ left ∷ right ∷ []) }
{
    let mut pats = Items::new(alloc);
    pats.push(left)?;
    pats.push(right)?;
    Ok(pats)
}

// lhs ::= vname apat* | pat op pat
#[tactic(auto, unfolding(rw_parser_reading::specs::ReadClauses::left_side_at))]
pub fn left_side(
    alloc: Global,
    tokens: &[Lexeme],
) -> Result<((Name, Items<Pat<Span>>), &[Lexeme]), Unread>
    ensures { Gives (λ x. (x.0, x.1.now)) result (within.any_left_side_at tokens.now) }
{
    if begins_infix(tokens) {
        infix(alloc, tokens)
    } else {
        prefix(alloc, tokens)
    }
}
