// Tokens as text.

use crate::nodes::push_name;
use rw_lex::{Token, TokenKind};
use std::alloc::{AllocError, Global};

// The letter of a kind: `v` a variable, `c` a constructor, `n` a number, `o` an operator, `k` a keyword, `s` another.
fn letter(kind: TokenKind) -> char {
    match kind {
        TokenKind::Variable => 'v',
        TokenKind::Constructor => 'c',
        TokenKind::Number => 'n',
        TokenKind::Operator => 'o',
        TokenKind::Keyword => 'k',
        TokenKind::Special => 's',
    }
}

/// Each token as its letter, a star if it is the first of its line, its place and its text, with a space between two.
pub fn tokens_shown(alloc: Global, tokens: &[Token]) -> Result<String, AllocError> {
    let mut out = String::new(alloc);
    for (i, token) in tokens.iter().enumerate() {
        if i > 0 {
            out.push(' ')?;
        }
        out.push(letter(token.kind))?;
        if token.first {
            out.push('*')?;
        }
        write!(out, "{}:{}=", token.at.line, token.at.column)?;
        push_name(&mut out, &token.text)?;
    }
    Ok(out)
}

/// The texts of the tokens alone, with a space between two.
pub fn texts_shown(alloc: Global, tokens: &[Token]) -> Result<String, AllocError> {
    let mut out = String::new(alloc);
    for (i, token) in tokens.iter().enumerate() {
        if i > 0 {
            out.push(' ')?;
        }
        push_name(&mut out, &token.text)?;
    }
    Ok(out)
}
