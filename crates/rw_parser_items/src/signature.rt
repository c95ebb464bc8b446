// Type signatures and their contexts (Haskell 2010 Report, sections 4.1.3 and 4.4.1). The grammar rule stands above each
// function.
ghost use Rattle.std.specs.Prelude.{◌≡◌, ◌<◌, ◌≤◌, length, IfOk};
ghost use Rattle.rw_parser_reading.specs.Frames.{frames_of_declaration, cut};
ghost use Rattle.rw_parser_reading.specs.ReadDeclarations as spec;
ghost use Rattle.rw_parser_reading.specs.ReadNames as marks;
ghost use Rattle.rw_parser_patterns.specs.Depth.{any_type_at};
ghost use Rattle.rw_base.specs.Answers.{Gives};
ghost use Rattle.rw_parser_items.specs.Kept as keep;

use crate::list::{Named, monad, names};
use rw_base::{Name, Span, Unread};
use rw_parser_grammar::{Lexeme, Mark};
use rw_parser_patterns::{after, next_spot, rest_of, same_mark, sees, span_at, written_type};
use rw_tree::{Decl, Written};
use sqlite_items::Items;
use std::alloc::Global;

/// sig ::= vname (`,` vname)* `::` [context `=>`] type
#[tactic(auto, unfolding(crate::specs::Kept::signature_kept))]
pub fn type_signature(
    alloc: Global,
    room: usize,
    tokens: &[Lexeme],
) -> Result<(Option<Decl<Span>>, &[Lexeme]), Unread>
    ensures { Gives (λ x. (x.0, x.1.now)) result (keep.signature_kept room tokens.now) }
{
    let (signed, rest) = names(alloc, Named::Signed, tokens)?;
    let rest = after(rest, Mark::Colons)?;
    let (_monads, rest) = context(alloc, rest)?;
    let (written, rest) = written_type(alloc, room, rest)?;
    let span = span_at(next_spot(tokens), rest);
    Ok((signature_of(span, signed, written), rest))
}

fn signature_of(span: Span, signed: Items<Name>, written: Option<Written>) -> Option<Decl<Span>>
    ensures { result ≡ keep.signature_of span signed written }
{
    match written {
        Some(written) => Some(Decl::Sig(span, signed, written)),
        None => None,
    }
}

// A token that contexts are made of, and patterns.
fn is_plain(token: &Lexeme) -> bool
    ensures { result ≡ marks.is_plain token.now }
{
    match token {
        Lexeme::Mark(_, mark) => {
            same_mark(*mark, Mark::Opens)
                || (same_mark(*mark, Mark::Closes)
                    || (same_mark(*mark, Mark::Comma) || same_mark(*mark, Mark::Underscore)))
        }
        Lexeme::Variable(_, _) | Lexeme::Constructor(_, _) => true,
        Lexeme::Operator(_, _) | Lexeme::Number(_, _) => false,
    }
}

// The tokens from the first on that no context is made of.
fn beyond(tokens: &[Lexeme]) -> &[Lexeme]
    ensures { result.now ≡ marks.beyond tokens.now }
{
    let mut rest = tokens;
    for _turn in 0..tokens.len() {
        match rest {
            [first, others @ ..] if is_plain(first) => rest = others,
            _ => break,
        }
    }
    rest
}

fn begins_context(tokens: &[Lexeme]) -> bool
    ensures { result ≡ spec.begins_context tokens.now }
{
    sees(beyond(tokens), Mark::Implies)
}

// [context `=>`]
#[tactic(auto, unfolding(rw_parser_reading::specs::ReadDeclarations::context_at))]
fn context(alloc: Global, tokens: &[Lexeme]) -> Result<(Items<Name>, &[Lexeme]), Unread>
    ensures { Gives (λ x. (x.0, x.1.now)) result (spec.context_at tokens.now) }
{
    if begins_context(tokens) {
        return given_context(alloc, tokens);
    }
    Ok((Items::new(alloc), tokens))
}

// context `=>`, where context ::= `Monad` var | `(` `Monad` var (`,` `Monad` var)* `)`
#[tactic(auto, unfolding(rw_parser_reading::specs::ReadDeclarations::given_context_at))]
fn given_context(alloc: Global, tokens: &[Lexeme]) -> Result<(Items<Name>, &[Lexeme]), Unread>
    ensures { Gives (λ x. (x.0, x.1.now)) result (spec.given_context_at tokens.now) }
{
    if sees(tokens, Mark::Opens) {
        return monads(alloc, rest_of(tokens));
    }
    let (name, rest) = monad(alloc, tokens)?;
    let rest = after(rest, Mark::Implies)?;
    let mut all = Items::new(alloc);
    all.push(name)?;
    Ok((all, rest))
}

// `Monad` var (`,` `Monad` var)* `)` `=>`
#[tactic(auto, unfolding(rw_parser_reading::specs::ReadDeclarations::monads_at))]
fn monads(alloc: Global, tokens: &[Lexeme]) -> Result<(Items<Name>, &[Lexeme]), Unread>
    ensures { Gives (λ x. (x.0, x.1.now)) result (spec.monads_at tokens.now) }
{
    let (all, rest) = names(alloc, Named::Monad, tokens)?;
    let rest = after(rest, Mark::Closes)?;
    let rest = after(rest, Mark::Implies)?;
    Ok((all, rest))
}
