// Tokens one by one, from the front of a list, and spans.
ghost use Rattle.std.specs.Prelude.{◌≡◌, ◌≤◌, length, drop, nat_le, IfOk};
ghost use Rattle.rw_parser_reading.specs.Read as reads;
ghost use Rattle.rw_parser_grammar.specs.Lexemes as lexemes;
ghost use Rattle.rw_base.specs.Answers.{Gives};

use rw_base::{NotSpelled, Place, Span, Unread};
use rw_parser_grammar::{Lexeme, Mark, Spot};

#[tactic(auto, unfolding(rw_parser_reading::specs::Read::same_mark))]
pub fn same_mark(a: Mark, b: Mark) -> bool
    ensures { result ≡ reads.same_mark a b }
{
    a == b
}

// The next token is this mark.
pub fn sees(tokens: &[Lexeme], wanted: Mark) -> bool
    ensures { result ≡ reads.sees wanted tokens.now }
{
    match tokens {
        [Lexeme::Mark(_, mark), ..] => same_mark(*mark, wanted),
        _ => false,
    }
}

// The tokens but for the first.
pub fn rest_of(tokens: &[Lexeme]) -> &[Lexeme]
    ensures rest { result.now ≡ drop 1 tokens.now }
    ensures shorter { length result.now ≤ length tokens.now }
{
    match tokens {
        [] => tokens,
        [_, rest @ ..] => rest,
    }
}

// The tokens after a mark.
#[tactic(auto, unfolding(rw_parser_reading::specs::Read::after))]
pub fn after(tokens: &[Lexeme], wanted: Mark) -> Result<&[Lexeme], Unread>
    ensures read { Gives (λ r. r.now) result (reads.after wanted tokens.now) }
    ensures shorter { IfOk result (λ r. length r.now ≤ length tokens.now) }
{
    if sees(tokens, wanted) {
        Ok(rest_of(tokens))
    } else {
        Err(Unread::Refused(NotSpelled))
    }
}

// A tuple has at most 8 parts.
pub fn few(parts: usize) -> bool
    ensures { result ≡ nat_le parts 8 }
{
    parts <= 8
}

fn spot_of(token: &Lexeme) -> Spot
    ensures { result ≡ lexemes.spot_of token.now }
{
    match token {
        Lexeme::Mark(at, _)
        | Lexeme::Variable(at, _)
        | Lexeme::Constructor(at, _)
        | Lexeme::Operator(at, _)
        | Lexeme::Number(at, _) => *at,
    }
}

// Where the next token stands. Behind the last one there is none.
pub fn next_spot(tokens: &[Lexeme]) -> Spot
    ensures { result ≡ lexemes.next_spot tokens.now }
{
    match tokens {
        [first, ..] => spot_of(first),
        [] => Spot {
            place: Place { line: 0, column: 0 },
            number: 0,
        },
    }
}

// The tokens from one that stands at `at` up to `rest`, which follows.
pub fn span_at(at: Spot, rest: &[Lexeme]) -> Span
    ensures { result ≡ lexemes.span_at at rest.now }
{
    Span {
        first: at.place,
        from: at.number,
        to: next_spot(rest).number,
    }
}
