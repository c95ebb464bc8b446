// Names with commas between them. The grammar rule stands above each function.
ghost use Rattle.std.specs.Prelude.{◌≡◌, ◌<◌, ◌≤◌, length, IfOk};
ghost use Rattle.rw_parser_reading.specs.Read as reads;
ghost use Rattle.rw_parser_reading.specs.Read.{separated_at};
ghost use Rattle.rw_parser_reading.specs.ReadDeclarations as spec;
ghost use Rattle.rw_parser_grammar.specs.declared.lexeme.Mark.TheVariants as m;
ghost use Rattle.rw_base.specs.Answers.{Gives};
ghost use Rattle.rw_parser_items.specs.Named as named;

use rw_base::{Name, NotSpelled, Unread};
use rw_parser_grammar::{Lexeme, Mark, Spot};
use rw_parser_patterns::{after, constructor_name, rest_of, same_mark, sees, variable_name};
use sqlite_items::Items;
use std::alloc::Global;

/// What a list of names is a list of.
#[derive(Clone, Copy, Debug, PartialEq, Eq)]
pub enum Named {
    /// A variable, an operator in parentheses or a constructor.
    Entity,
    /// A class, which is a constructor by its spelling.
    Class,
    /// A variable operator or a constructor in backquotes.
    Operator,
    /// A variable or an operator in parentheses.
    Signed,
    /// A variable behind `Monad`.
    Monad,
}

// name (`,` name)*
pub fn names(
    alloc: Global,
    which: Named,
    tokens: &[Lexeme],
) -> Result<(Items<Name>, &[Lexeme]), Unread>
    ensures read { Gives (λ x. (x.0, x.1.now)) result (separated_at m.Comma (named.named_at which) (length tokens.now) tokens.now) }
    ensures shorter { IfOk result (λ x. length x.1.now < length tokens.now) }
{
    let mut all = Items::new(alloc);
    let mut rest = tokens;
    for _turn in 0..tokens.len() {
        let (one, behind) = one_name(alloc, which, rest)?;
        all.push(one)?;
        if !sees(behind, Mark::Comma) {
            return Ok((all, behind));
        }
        rest = rest_of(behind);
    }
    Err(Unread::Refused(NotSpelled))
}

fn one_name(alloc: Global, which: Named, tokens: &[Lexeme]) -> Result<(Name, &[Lexeme]), Unread>
    ensures read { Gives (λ x. (x.0, x.1.now)) result (named.named_at which tokens.now) }
    ensures shorter { IfOk result (λ x. length x.1.now < length tokens.now) }
{
    match which {
        Named::Entity => entity_name(alloc, tokens),
        Named::Class => constructor_name(alloc, tokens),
        Named::Operator => operator_name(alloc, tokens),
        Named::Signed => signed_name(alloc, tokens),
        Named::Monad => monad(alloc, tokens),
    }
}

pub fn begins_constructor(tokens: &[Lexeme]) -> bool
    ensures { result ≡ reads.begins_constructor tokens.now }
{
    matches!(tokens, [Lexeme::Constructor(_, _), ..])
}

// vname | Con
#[tactic(auto, unfolding(rw_parser_reading::specs::ReadDeclarations::entity_name_at))]
fn entity_name(alloc: Global, tokens: &[Lexeme]) -> Result<(Name, &[Lexeme]), Unread>
    ensures read { Gives (λ x. (x.0, x.1.now)) result (spec.entity_name_at tokens.now) }
    ensures shorter { IfOk result (λ x. length x.1.now < length tokens.now) }
{
    if begins_constructor(tokens) {
        return constructor_name(alloc, tokens);
    }
    let ((_, name), rest) = variable_name(alloc, tokens)?;
    Ok((name, rest))
}

// vname
#[tactic(auto, unfolding(rw_parser_reading::specs::ReadDeclarations::signed_name_at))]
pub fn signed_name(alloc: Global, tokens: &[Lexeme]) -> Result<(Name, &[Lexeme]), Unread>
    ensures read { Gives (λ x. (x.0, x.1.now)) result (spec.signed_name_at tokens.now) }
    ensures shorter { IfOk result (λ x. length x.1.now < length tokens.now) }
{
    let ((_, name), rest) = variable_name(alloc, tokens)?;
    Ok((name, rest))
}

// op ::= Operator | `` ` `` (var | Con) `` ` ``
fn operator_name(alloc: Global, tokens: &[Lexeme]) -> Result<(Name, &[Lexeme]), Unread>
    ensures read { Gives (λ x. (x.0, x.1.now)) result (spec.operator_name_at tokens.now) }
    ensures shorter { IfOk result (λ x. length x.1.now < length tokens.now) }
{
    match tokens {
        [Lexeme::Mark(_, mark), rest @ ..] => {
            if same_mark(*mark, Mark::Backquote) {
                quoted_name(alloc, rest)
            } else {
                Err(Unread::Refused(NotSpelled))
            }
        }
        [Lexeme::Operator(_, name), rest @ ..] => Ok((name.copied(alloc)?, rest)),
        _ => Err(Unread::Refused(NotSpelled)),
    }
}

// (var | Con) `` ` ``
fn quoted_name(alloc: Global, tokens: &[Lexeme]) -> Result<(Name, &[Lexeme]), Unread>
    ensures read { Gives (λ x. (x.0, x.1.now)) result (spec.quoted_name_at tokens.now) }
    ensures shorter { IfOk result (λ x. length x.1.now < length tokens.now) }
{
    match tokens {
        [Lexeme::Variable(_, name), rest @ ..] | [Lexeme::Constructor(_, name), rest @ ..] => {
            let rest = after(rest, Mark::Backquote)?;
            Ok((name.copied(alloc)?, rest))
        }
        _ => Err(Unread::Refused(NotSpelled)),
    }
}

// var
pub fn variable(alloc: Global, tokens: &[Lexeme]) -> Result<((Spot, Name), &[Lexeme]), Unread>
    ensures read { Gives (λ x. (x.0, x.1.now)) result (reads.variable_at tokens.now) }
    ensures shorter { IfOk result (λ x. length x.1.now < length tokens.now) }
{
    match tokens {
        [Lexeme::Variable(at, name), rest @ ..] => Ok(((*at, name.copied(alloc)?), rest)),
        _ => Err(Unread::Refused(NotSpelled)),
    }
}

// `Monad` var
#[tactic(auto, unfolding(rw_parser_reading::specs::ReadDeclarations::monad_at))]
pub fn monad(alloc: Global, tokens: &[Lexeme]) -> Result<(Name, &[Lexeme]), Unread>
    ensures read { Gives (λ x. (x.0, x.1.now)) result (spec.monad_at tokens.now) }
    ensures shorter { IfOk result (λ x. length x.1.now < length tokens.now) }
{
    let (class, rest) = constructor_name(alloc, tokens)?;
    let ((_, name), rest) = variable(alloc, rest)?;
    if class.as_slice() == b"Monad".as_slice() {
        Ok((name, rest))
    } else {
        Err(Unread::Refused(NotSpelled))
    }
}
