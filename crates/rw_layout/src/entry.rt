// The entries of the layout rule's stack, and what is asked of one.
ghost use Rattle.std.specs.Prelude.{◌≡◌};
ghost use Rattle.rw_layout.specs.Layout as spec;

use crate::Before;
use rw_base::Place;

/// What a token of its own closes again.
#[derive(Clone, Copy, Debug, PartialEq, Eq)]
pub enum Opener {
    /// `(`, which `)` closes.
    Paren,
    /// A written `{`, which a written `}` closes.
    Brace,
    /// A written `{` behind `let`.
    LetBrace,
    /// `case`, which `of` closes.
    Case,
    /// `if`, which `then` closes.
    If,
    /// `then`, which `else` closes.
    Then,
}

/// An entry of the stack.
#[derive(Clone, Copy, Debug, PartialEq, Eq)]
pub enum Entry {
    /// A block that a word opened without a brace: the column of its first token, and whether the word is `let`.
    Block(u32, bool),
    /// An opener, and its place.
    Open(Opener, Place),
}

/// The opener as the stack knows it: a `{` behind `let` is remembered as such.
pub fn known_as(opener: Opener, before: Before) -> Opener
    ensures { result ≡ spec.known_as opener before }
{
    match (opener, before) {
        (Opener::Brace, Before::Word(true)) => Opener::LetBrace,
        _ => opener,
    }
}

/// Whether the entry is the opener that is wanted.
pub fn is_opener(wanted: Opener, entry: Option<Entry>) -> bool
    ensures { result ≡ spec.is_opener wanted entry }
{
    let Some(Entry::Open(opener, _)) = entry else {
        return false;
    };
    match wanted {
        Opener::Paren => matches!(opener, Opener::Paren),
        Opener::Brace => matches!(opener, Opener::Brace | Opener::LetBrace),
        Opener::LetBrace => false,
        Opener::Case => matches!(opener, Opener::Case),
        Opener::If => matches!(opener, Opener::If),
        Opener::Then => matches!(opener, Opener::Then),
    }
}

/// Whether the entry is a block of a `let`.
pub fn is_let_block(entry: Option<Entry>) -> bool
    ensures { result ≡ spec.is_let_block entry }
{
    matches!(entry, Some(Entry::Block(_, true)))
}

/// Whether the entry is the written brace of a `let`.
pub fn is_let_brace(entry: Option<Entry>) -> bool
    ensures { result ≡ spec.is_let_brace entry }
{
    matches!(entry, Some(Entry::Open(Opener::LetBrace, _)))
}

/// Whether the entry is a block of this column.
pub fn has_parts_at(at: Place, entry: Option<Entry>) -> bool
    ensures { result ≡ spec.has_parts_at at entry }
{
    match entry {
        Some(Entry::Block(column, _)) => column == at.column,
        _ => false,
    }
}
