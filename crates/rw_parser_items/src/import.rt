// Imports (Haskell 2010 Report, section 5.3). The grammar rule stands above each function.
ghost use Rattle.std.specs.Prelude.{◌≡◌, ◌<◌, ◌≤◌, length, codes, IfOk};
ghost use Rattle.rw_parser_reading.specs.ReadDeclarations as spec;
ghost use Rattle.rw_base.specs.Answers.{Gives};

use crate::module::{exports, module_name, pointed};
use rw_base::{Span, Unread};
use rw_parser_grammar::{Lexeme, Mark};
use rw_parser_patterns::{after, next_spot, rest_of, span_at};
use rw_tree::Decl;
use std::alloc::Global;

/// import ::= `import` [`qualified`] modname [`as` modname] [`hiding`] [exports]
#[tactic(auto, unfolding(rw_parser_reading::specs::ReadDeclarations::import_at))]
pub fn import_declaration(
    alloc: Global,
    tokens: &[Lexeme],
) -> Result<(Decl<Span>, &[Lexeme]), Unread>
    ensures { Gives (λ x. (x.0, x.1.now)) result (spec.import_at tokens.now) }
{
    let rest = after(tokens, Mark::Import)?;
    let (names, rest) = module_name(alloc, behind_qualified(rest))?;
    let rest = behind_as(alloc, rest)?;
    let (_listing, rest) = exports(alloc, behind_hiding(rest))?;
    let name = pointed(alloc, names.as_slice())?;
    let span = span_at(next_spot(tokens), rest);
    Ok((Decl::Import(span, name), rest))
}

fn sees_word(tokens: &[Lexeme], word: &[u8]) -> bool
    ensures { result ≡ spec.sees_word word.now tokens.now }
{
    match tokens {
        [Lexeme::Variable(_, name), ..] => name.as_slice() == word,
        _ => false,
    }
}

// [`qualified`]
#[tactic(auto, unfolding(rw_parser_reading::specs::ReadDeclarations::behind_word))]
fn behind_qualified(tokens: &[Lexeme]) -> &[Lexeme]
    ensures { result.now ≡ spec.behind_word (codes "qualified") tokens.now }
{
    if sees_word(tokens, b"qualified".as_slice()) {
        rest_of(tokens)
    } else {
        tokens
    }
}

// [`hiding`]
#[tactic(auto, unfolding(rw_parser_reading::specs::ReadDeclarations::behind_word))]
fn behind_hiding(tokens: &[Lexeme]) -> &[Lexeme]
    ensures { result.now ≡ spec.behind_word (codes "hiding") tokens.now }
{
    if sees_word(tokens, b"hiding".as_slice()) {
        rest_of(tokens)
    } else {
        tokens
    }
}

// [`as` modname]
#[tactic(auto, unfolding(rw_parser_reading::specs::ReadDeclarations::behind_as))]
fn behind_as(alloc: Global, tokens: &[Lexeme]) -> Result<&[Lexeme], Unread>
    ensures { Gives (λ r. r.now) result (spec.behind_as tokens.now) }
{
    if !sees_word(tokens, b"as".as_slice()) {
        return Ok(tokens);
    }
    let (_names, rest) = module_name(alloc, rest_of(tokens))?;
    Ok(rest)
}
