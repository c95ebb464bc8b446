// The tokens of a source as the grammar sees them: each with its number and its place.

use rw_base::{Name, Place};

/// A token that the grammar knows by its spelling alone: a reserved word, a reserved operator, or a special
/// character (Haskell 2010 Report, sections 2.2 and 2.4).
#[derive(Clone, Copy, Debug, PartialEq, Eq)]
pub enum Mark {
    /// `(`
    Opens,
    /// `)`
    Closes,
    /// `,`
    Comma,
    /// `;`
    Semicolon,
    /// `` ` ``
    Backquote,
    /// `{`
    OpensBlock,
    /// `}`
    ClosesBlock,
    /// `..`
    Dots,
    /// `::`
    Colons,
    /// `=`
    Equal,
    /// `\`
    Backslash,
    /// `|`
    Bar,
    /// `<-`
    FromArrow,
    /// `->`
    Arrow,
    /// `=>`
    Implies,
    /// `_`
    Underscore,
    Case,
    Data,
    Deriving,
    Do,
    Else,
    If,
    Import,
    In,
    Infix,
    Infixl,
    Infixr,
    Let,
    Module,
    Newtype,
    Of,
    Then,
    Where,
    /// A reserved token that stands in no rule of the grammar: `@`, `~`, `:`, an operator that begins with `:`,
    /// and the words `class`, `default`, `foreign`, `instance` and `type`.
    Unused,
}

/// Where a token stands: the place of its first byte, and its number in the list, from 0.
#[derive(Clone, Copy, Debug, PartialEq, Eq)]
pub struct Spot {
    pub place: Place,
    pub number: u32,
}

/// A token: one with a fixed spelling, or a variable, a constructor, an operator or a number with its bytes.
#[derive(Debug, Drop)]
pub enum Lexeme {
    Mark(Spot, Mark),
    Variable(Spot, Name),
    Constructor(Spot, Name),
    /// An operator that is not reserved and does not begin with `:`.
    Operator(Spot, Name),
    /// The digits of a number.
    Number(Spot, Name),
}
