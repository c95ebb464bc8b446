// The tokens of a source as the grammar sees them, each with its number (Haskell 2010 Report, sections 2.2 to 2.4).
ghost use Rattle.std.specs.Prelude.{◌≡◌, ◌<◌, ◌^◌, length, IfOk};
ghost use Rattle.rw_parser_grammar.specs.Lexemes as spec;

use rw_base::OutOfMemory;
use rw_lex::{Token, TokenKind};
use rw_parser_grammar::{Lexeme, Mark, Spot};
use sqlite_items::Items;
use std::alloc::Global;

// A reserved word of the grammar.
fn word_mark(text: &[u8]) -> Option<Mark>
    ensures { result ≡ spec.mark_in spec.words text.now }
{
    if text == b"_".as_slice() {
        Some(Mark::Underscore)
    } else if text == b"case".as_slice() {
        Some(Mark::Case)
    } else if text == b"data".as_slice() {
        Some(Mark::Data)
    } else if text == b"deriving".as_slice() {
        Some(Mark::Deriving)
    } else if text == b"do".as_slice() {
        Some(Mark::Do)
    } else if text == b"else".as_slice() {
        Some(Mark::Else)
    } else if text == b"if".as_slice() {
        Some(Mark::If)
    } else if text == b"import".as_slice() {
        Some(Mark::Import)
    } else if text == b"in".as_slice() {
        Some(Mark::In)
    } else if text == b"infix".as_slice() {
        Some(Mark::Infix)
    } else if text == b"infixl".as_slice() {
        Some(Mark::Infixl)
    } else if text == b"infixr".as_slice() {
        Some(Mark::Infixr)
    } else if text == b"let".as_slice() {
        Some(Mark::Let)
    } else if text == b"module".as_slice() {
        Some(Mark::Module)
    } else if text == b"newtype".as_slice() {
        Some(Mark::Newtype)
    } else if text == b"of".as_slice() {
        Some(Mark::Of)
    } else if text == b"then".as_slice() {
        Some(Mark::Then)
    } else if text == b"where".as_slice() {
        Some(Mark::Where)
    } else {
        None
    }
}

// A reserved operator.
fn reserved_mark(text: &[u8]) -> Option<Mark>
    ensures { result ≡ spec.mark_in spec.reserved text.now }
{
    if text == b"..".as_slice() {
        Some(Mark::Dots)
    } else if text == b"::".as_slice() {
        Some(Mark::Colons)
    } else if text == b"=".as_slice() {
        Some(Mark::Equal)
    } else if text == b"\\".as_slice() {
        Some(Mark::Backslash)
    } else if text == b"|".as_slice() {
        Some(Mark::Bar)
    } else if text == b"<-".as_slice() {
        Some(Mark::FromArrow)
    } else if text == b"->".as_slice() {
        Some(Mark::Arrow)
    } else if text == b"=>".as_slice() {
        Some(Mark::Implies)
    } else if text == b"@".as_slice() {
        Some(Mark::Unused)
    } else if text == b"~".as_slice() {
        Some(Mark::Unused)
    } else {
        None
    }
}

// A bracket, the comma, the semicolon or the backquote.
fn special_mark(text: &[u8]) -> Option<Mark>
    ensures { result ≡ spec.mark_in spec.specials text.now }
{
    if text == b"(".as_slice() {
        Some(Mark::Opens)
    } else if text == b")".as_slice() {
        Some(Mark::Closes)
    } else if text == b",".as_slice() {
        Some(Mark::Comma)
    } else if text == b";".as_slice() {
        Some(Mark::Semicolon)
    } else if text == b"`".as_slice() {
        Some(Mark::Backquote)
    } else if text == b"{".as_slice() {
        Some(Mark::OpensBlock)
    } else if text == b"}".as_slice() {
        Some(Mark::ClosesBlock)
    } else {
        None
    }
}

fn begins_colon(text: &[u8]) -> bool
    ensures { result ≡ spec.begins_colon text.now }
{
    matches!(text, [b':', ..])
}

fn marked(at: Spot, found: Option<Mark>) -> Lexeme
    ensures { result ≡ spec.marked at found }
{
    match found {
        Some(mark) => Lexeme::Mark(at, mark),
        None => Lexeme::Mark(at, Mark::Unused),
    }
}

// An operator that begins with a colon and is not reserved stands in no rule of the grammar.
fn operator(alloc: Global, at: Spot, token: &Token) -> Result<Lexeme, OutOfMemory>
    ensures { IfOk result (λ made. made ≡ spec.operator_of at token.now.text (spec.mark_in spec.reserved token.now.text)) }
{
    match reserved_mark(token.text.as_slice()) {
        Some(mark) => Ok(Lexeme::Mark(at, mark)),
        None => {
            if begins_colon(token.text.as_slice()) {
                Ok(Lexeme::Mark(at, Mark::Unused))
            } else {
                Ok(Lexeme::Operator(at, token.text.copied(alloc)?))
            }
        }
    }
}

// One token, which stands at `at`.
fn lexeme(alloc: Global, at: Spot, token: &Token) -> Result<Lexeme, OutOfMemory>
    ensures { IfOk result (λ made. made ≡ spec.lexeme_as at token.now.kind token.now.text) }
{
    match token.kind {
        TokenKind::Variable => Ok(Lexeme::Variable(at, token.text.copied(alloc)?)),
        TokenKind::Constructor => Ok(Lexeme::Constructor(at, token.text.copied(alloc)?)),
        TokenKind::Number => Ok(Lexeme::Number(at, token.text.copied(alloc)?)),
        TokenKind::Operator => operator(alloc, at, token),
        TokenKind::Keyword => Ok(marked(at, word_mark(token.text.as_slice()))),
        TokenKind::Special => Ok(marked(at, special_mark(token.text.as_slice()))),
    }
}

/// The tokens of a source as the grammar sees them, numbered from 0. There are fewer than 2^32.
pub fn number_tokens(alloc: Global, tokens: &[Token]) -> Result<Items<Lexeme>, OutOfMemory>
    requires few { length tokens.now < 2 ^ 32 }
    ensures { IfOk result (λ made. made ≡ spec.lexemes tokens.now) }
{
    let mut all = Items::new(alloc);
    let mut number: u32 = 0;
    for token in tokens {
        let at = Spot {
            place: token.at,
            number,
        };
        all.push(lexeme(alloc, at, token)?)?;
        number += 1;
    }
    Ok(all)
}
