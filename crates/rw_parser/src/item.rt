// One item of a program, from its first token to the one behind its last, over the reader of a clause. The grammar rule
// stands above each function.
ghost use Rattle.std.specs.Prelude.{◌≡◌, ◌≤◌, ℕ, length};
ghost use Rattle.rw_parser_reading.specs.ReadClauses as clauses;
ghost use Rattle.rw_parser_reading.specs.ReadDeclarations as spec;
ghost use Rattle.rw_base.specs.Answers.{Gives};
ghost use Rattle.rw_parser.specs.Clauses.{ReadsClauses};
ghost use Rattle.rw_parser.specs.Kept as keep;

use rw_base::{Name, Span, Unread};
use rw_parser_chains::MAX_LEVELS;
use rw_parser_grammar::{Item, Lexeme, Mark};
use rw_parser_items::{data_type, fixity_declaration, import_declaration, newtype, type_signature};
use rw_parser_patterns::{rest_of, same_mark, sees};
use rw_tree::{Alt, Decl};
use std::alloc::Global;

fn begins_fixity(tokens: &[Lexeme]) -> bool
    ensures { result ≡ spec.begins_fixity tokens.now }
{
    sees(tokens, Mark::Infix) || (sees(tokens, Mark::Infixl) || sees(tokens, Mark::Infixr))
}

// The tokens behind a variable, or behind an operator in parentheses, go on with a signature.
fn goes_signed(tokens: &[Lexeme]) -> bool
    ensures { result ≡ keep.goes_on tokens.now }
{
    sees(tokens, Mark::Comma) || sees(tokens, Mark::Colons)
}

// Operator `)` (`,` | `::`)
#[tactic(auto, unfolding(rw_parser_reading::specs::ReadClauses::operator_closed_at, rw_parser_reading::specs::Read::after))]
fn closes_signed(tokens: &[Lexeme]) -> bool
    ensures { result ≡ spec.goes_signed (clauses.operator_closed_at tokens.now) }
{
    match tokens {
        [Lexeme::Operator(_, _), rest @ ..] => {
            sees(rest, Mark::Closes) && goes_signed(rest_of(rest))
        }
        _ => false,
    }
}

// vname (`,` | `::`)
fn begins_signed(tokens: &[Lexeme]) -> bool
    ensures { result ≡ spec.begins_signed tokens.now }
{
    match tokens {
        [Lexeme::Variable(_, _), rest @ ..] => goes_signed(rest),
        [Lexeme::Mark(_, mark), rest @ ..] => same_mark(*mark, Mark::Opens) && closes_signed(rest),
        _ => false,
    }
}

// A declaration that is whole, if it is kept.
fn whole(decl: Option<Decl<Span>>) -> Option<Item>
    ensures { result ≡ keep.whole decl }
{
    match decl {
        Some(decl) => Some(Item::Whole(decl)),
        None => None,
    }
}

// A clause, if it is kept.
fn clause_of(made: Option<(Name, Alt<Span>)>) -> Option<Item>
    ensures { result ≡ keep.clause_of made }
{
    match made {
        Some((name, row)) => Some(Item::Clause(name, row)),
        None => None,
    }
}

// sig | clause
fn named_item<'a, R: Fn(&[Lexeme]) -> Result<(Option<(Name, Alt<Span>)>, &[Lexeme]), Unread>>(
    alloc: Global,
    clause: &R,
    tokens: &'a [Lexeme],
) -> Result<(Option<Item>, &'a [Lexeme]), Unread>
    requires { R.IsAlwaysCallable clause.now }
    ensures { ReadsClauses (R.post clause.now) → (n : ℕ) → length tokens.now ≤ n → Gives (λ x. (x.0, x.1.now)) result (keep.named_item_kept n tokens.now) }
{
    if begins_signed(tokens) {
        let (decl, rest) = type_signature(alloc, MAX_LEVELS, tokens)?;
        return Ok((whole(decl), rest));
    }
    let (made, rest) = clause(tokens)?;
    Ok((clause_of(made), rest))
}

/// The item that the tokens begin with, kept if it has 512 frames at most, and the tokens that follow it; `clause` reads a
/// clause (Haskell 2010 Report, chapters 4 and 5).
///
/// item ::= import | data | newtype | fixity | sig | clause
#[tactic(auto, unfolding(crate::specs::Kept::item_kept))]
pub fn read_item<'a, R: Fn(&[Lexeme]) -> Result<(Option<(Name, Alt<Span>)>, &[Lexeme]), Unread>>(
    alloc: Global,
    clause: &R,
    tokens: &'a [Lexeme],
) -> Result<(Option<Item>, &'a [Lexeme]), Unread>
    requires { R.IsAlwaysCallable clause.now }
    ensures { ReadsClauses (R.post clause.now) → (n : ℕ) → length tokens.now ≤ n → Gives (λ x. (x.0, x.1.now)) result (keep.item_kept n tokens.now) }
{
    if sees(tokens, Mark::Import) {
        let (decl, rest) = import_declaration(alloc, tokens)?;
        return Ok((Some(Item::Whole(decl)), rest));
    }
    if sees(tokens, Mark::Data) {
        let (decl, rest) = data_type(alloc, MAX_LEVELS, tokens)?;
        return Ok((whole(decl), rest));
    }
    if sees(tokens, Mark::Newtype) {
        let (decl, rest) = newtype(alloc, MAX_LEVELS, tokens)?;
        return Ok((whole(decl), rest));
    }
    if begins_fixity(tokens) {
        let (decl, rest) = fixity_declaration(alloc, tokens)?;
        return Ok((Some(Item::Whole(decl)), rest));
    }
    named_item(alloc, clause, tokens)
}
