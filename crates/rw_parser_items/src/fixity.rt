// Fixity declarations (Haskell 2010 Report, section 4.4.2). The grammar rule stands above each function.
ghost use Rattle.std.specs.Prelude.{◌≡◌, [], ◌∷◌};
ghost use Rattle.rw_parser_grammar.specs.Declarations as grammar;
ghost use Rattle.rw_parser_reading.specs.ReadDeclarations as spec;
ghost use Rattle.rw_base.specs.Answers.{Gives};

use crate::list::{Named, names};
use rw_base::{NotSpelled, Span, Unread};
use rw_parser_grammar::{Lexeme, Mark};
use rw_parser_patterns::{next_spot, sees, span_at};
use rw_tree::{Decl, Side};
use std::alloc::Global;

pub fn begins_fixity(tokens: &[Lexeme]) -> bool
    ensures { result ≡ spec.begins_fixity tokens.now }
{
    sees(tokens, Mark::Infix) || (sees(tokens, Mark::Infixl) || sees(tokens, Mark::Infixr))
}

/// fixity ::= (`infixl` | `infixr` | `infix`) [Number 0 to 9] op (`,` op)*
#[tactic(auto, unfolding(rw_parser_reading::specs::ReadDeclarations::fixity_at))]
pub fn fixity_declaration(
    alloc: Global,
    tokens: &[Lexeme],
) -> Result<(Decl<Span>, &[Lexeme]), Unread>
    ensures { Gives (λ x. (x.0, x.1.now)) result (spec.fixity_at tokens.now) }
{
    let (side, rest) = side_word(tokens)?;
    let (strength, rest) = strength(rest)?;
    let (operators, rest) = names(alloc, Named::Operator, rest)?;
    let span = span_at(next_spot(tokens), rest);
    Ok((Decl::Fixity(span, side, strength, operators), rest))
}

fn side_word(tokens: &[Lexeme]) -> Result<(Side, &[Lexeme]), Unread>
    ensures { Gives (λ x. (x.0, x.1.now)) result (spec.side_at tokens.now) }
{
    match tokens {
        [Lexeme::Mark(_, Mark::Infix), rest @ ..] => Ok((Side::Neither, rest)),
        [Lexeme::Mark(_, Mark::Infixl), rest @ ..] => Ok((Side::Left, rest)),
        [Lexeme::Mark(_, Mark::Infixr), rest @ ..] => Ok((Side::Right, rest)),
        _ => Err(Unread::Refused(NotSpelled)),
    }
}

// [Number 0 to 9]: without one the strength is 9
fn strength(tokens: &[Lexeme]) -> Result<(u32, &[Lexeme]), Unread>
    ensures { Gives (λ x. (x.0, x.1.now)) result (spec.strength_at tokens.now) }
{
    match tokens {
        [Lexeme::Number(_, digits), rest @ ..] => match one_digit(digits.as_slice()) {
            Some(strength) => Ok((strength, rest)),
            None => Err(Unread::Refused(NotSpelled)),
        },
        _ => Ok((9, tokens)),
    }
}

// A number from 0 to 9, with any zeros before it.
fn one_digit(digits: &[u8]) -> Option<u32>
    ensures { result ≡ grammar.strength_of digits.now }
{
    let mut left = digits;
    for _turn in 0..digits.len() {
        match left {
            [b'0', rest @ ..] if !rest.is_empty() => left = rest,
            _ => break,
        }
    }
    match left {
        [digit] => last_digit(*digit),
        _ => None,
    }
}

fn last_digit(digit: u8) -> Option<u32>
    ensures { result ≡ grammar.strength_of (digit ∷ []) }
{
    if b'0' <= digit && digit <= b'9' {
        Some((digit - b'0') as u32)
    } else {
        None
    }
}
