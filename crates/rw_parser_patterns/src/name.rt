// Names: variables, operators in parentheses, and constructors (Haskell 2010 Report, sections 3.2 and 10.5). The grammar
// rule stands above each function.
ghost use Rattle.std.specs.Prelude.{◌≡◌, ◌<◌, ◌≤◌, length, IfOk};
ghost use Rattle.rw_parser_reading.specs.ReadClauses as spec;
ghost use Rattle.rw_parser_reading.specs.ReadDeclarations as declarations;
ghost use Rattle.rw_base.specs.Answers.{Gives};

use crate::token::{after, same_mark};
use rw_base::{Name, NotSpelled, Unread};
use rw_parser_grammar::{Lexeme, Mark, Spot};
use std::alloc::Global;

/// vname ::= var | `(` Operator `)`: the name, and where it stands.
pub fn variable_name(alloc: Global, tokens: &[Lexeme]) -> Result<((Spot, Name), &[Lexeme]), Unread>
    ensures read { Gives (λ x. (x.0, x.1.now)) result (spec.variable_name_at tokens.now) }
    ensures shorter { IfOk result (λ x. length x.1.now < length tokens.now) }
{
    match tokens {
        [Lexeme::Mark(_, mark), rest @ ..] => {
            if same_mark(*mark, Mark::Opens) {
                operator_closed(alloc, rest)
            } else {
                Err(Unread::Refused(NotSpelled))
            }
        }
        [Lexeme::Variable(at, name), rest @ ..] => Ok(((*at, name.copied(alloc)?), rest)),
        _ => Err(Unread::Refused(NotSpelled)),
    }
}

// Operator `)`
#[tactic(auto, unfolding(rw_parser_reading::specs::ReadClauses::operator_closed_at))]
fn operator_closed(alloc: Global, tokens: &[Lexeme]) -> Result<((Spot, Name), &[Lexeme]), Unread>
    ensures read { Gives (λ x. (x.0, x.1.now)) result (spec.operator_closed_at tokens.now) }
    ensures shorter { IfOk result (λ x. length x.1.now ≤ length tokens.now) }
{
    match tokens {
        [Lexeme::Operator(at, name), rest @ ..] => {
            let rest = after(rest, Mark::Closes)?;
            Ok(((*at, name.copied(alloc)?), rest))
        }
        _ => Err(Unread::Refused(NotSpelled)),
    }
}

/// Con
#[tactic(auto, unfolding(rw_parser_reading::specs::ReadDeclarations::class_name_at))]
pub fn constructor_name(alloc: Global, tokens: &[Lexeme]) -> Result<(Name, &[Lexeme]), Unread>
    ensures read { Gives (λ x. (x.0, x.1.now)) result (declarations.class_name_at tokens.now) }
    ensures shorter { IfOk result (λ x. length x.1.now < length tokens.now) }
{
    match tokens {
        [Lexeme::Constructor(_, name), rest @ ..] => Ok((name.copied(alloc)?, rest)),
        _ => Err(Unread::Refused(NotSpelled)),
    }
}
