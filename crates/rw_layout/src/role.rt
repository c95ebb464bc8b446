// What the layout rule sees of a token, and what it must know of the token before.
ghost use Rattle.std.specs.Prelude.{◌≡◌};
ghost use Rattle.rw_layout.specs.Layout as spec;

use crate::Opener;
use rw_lex::{Token, TokenKind};

/// What a token is to the layout rule.
#[derive(Clone, Copy, Debug, PartialEq, Eq)]
pub enum Role {
    /// `module`.
    Module,
    /// `where` or `do`, and `let` if this is true: behind it a block opens.
    Begins(bool),
    /// `(`, `{`, `case` or `if`.
    Opens(Opener),
    /// `)`, `}`, `of`, `then` or `else`, which closes this.
    Closes(Opener),
    /// `,`.
    Comma,
    /// `in`.
    In,
    /// Any other token.
    Other,
}

/// What the token before asks of a token.
#[derive(Clone, Copy, Debug, PartialEq, Eq)]
pub enum Before {
    /// No token stands before: a block opens unless this one is `module` or `{`.
    Nothing,
    /// `where`, `do`, `of`, or `let` if this is true: a block opens unless this token is `{`.
    Word(bool),
    /// A written `}` that closed the braces of a `let`.
    LetEnd,
    /// Any other token.
    Other,
}

// The role of a keyword.
fn keyword_role(word: &[u8]) -> Role
    ensures { result ≡ spec.role_in spec.keywords word.now }
{
    if word == b"module".as_slice() {
        Role::Module
    } else if word == b"where".as_slice() {
        Role::Begins(false)
    } else if word == b"do".as_slice() {
        Role::Begins(false)
    } else if word == b"let".as_slice() {
        Role::Begins(true)
    } else if word == b"case".as_slice() {
        Role::Opens(Opener::Case)
    } else if word == b"if".as_slice() {
        Role::Opens(Opener::If)
    } else if word == b"of".as_slice() {
        Role::Closes(Opener::Case)
    } else if word == b"then".as_slice() {
        Role::Closes(Opener::If)
    } else if word == b"else".as_slice() {
        Role::Closes(Opener::Then)
    } else if word == b"in".as_slice() {
        Role::In
    } else {
        Role::Other
    }
}

// The role of a special character.
fn special_role(special: &[u8]) -> Role
    ensures { result ≡ spec.role_in spec.specials special.now }
{
    if special == b"(".as_slice() {
        Role::Opens(Opener::Paren)
    } else if special == b"{".as_slice() {
        Role::Opens(Opener::Brace)
    } else if special == b")".as_slice() {
        Role::Closes(Opener::Paren)
    } else if special == b"}".as_slice() {
        Role::Closes(Opener::Brace)
    } else if special == b",".as_slice() {
        Role::Comma
    } else {
        Role::Other
    }
}

/// The role of a token.
pub fn role_of(token: &Token) -> Role
    ensures { result ≡ spec.role_of token.now }
{
    match token.kind {
        TokenKind::Keyword => keyword_role(token.text.as_slice()),
        TokenKind::Special => special_role(token.text.as_slice()),
        _ => Role::Other,
    }
}

impl Before {
    /// Whether a block opens before a token of this role, and then whether it is of a `let`.
    pub fn opens(self, role: Role) -> Option<bool>
        ensures { result ≡ spec.opened self role }
    {
        match (self, role) {
            (Before::Nothing, Role::Module | Role::Opens(Opener::Brace)) => None,
            (Before::Nothing, _) => Some(false),
            (Before::Word(_), Role::Opens(Opener::Brace)) => None,
            (Before::Word(of_let), _) => Some(of_let),
            (Before::LetEnd | Before::Other, _) => None,
        }
    }
}
