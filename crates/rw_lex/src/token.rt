// The tokens of a source, each with its kind, its text and its place.

use rw_base::{Name, Place};

/// What a token is.
#[derive(Clone, Copy, Debug, PartialEq, Eq)]
pub enum TokenKind {
    /// A word that begins with a small letter or an underscore and is no keyword.
    Variable,
    /// A word that begins with a capital letter.
    Constructor,
    /// A run of digits.
    Number,
    /// The longest run of operator characters.
    Operator,
    /// One of the reserved words, `_` among them.
    Keyword,
    /// One of `(`, `)`, `,`, `;`, `` ` ``, `{` and `}`.
    Special,
}

/// A token: its kind, its bytes, the place of its first byte, and whether it is the first token of its line.
#[derive(Debug, Drop)]
pub struct Token {
    pub kind: TokenKind,
    pub text: Name,
    pub at: Place,
    pub first: bool,
}
