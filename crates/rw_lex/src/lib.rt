//! The tokens of a source: `lex` gives them with their places, or the rule that the source breaks and where
//! (Haskell 2010 Report, chapter 2, in this project's profile).
//!
//! It leaves blocks, grammar and names to the crates above, which see tokens alone; white space and comments are
//! gone. The layout stage stands on it. Begin with `specs/Tokens.antt`, which says what a token list is, and
//! `token.rt`, its type; then `scan.rt` with the public call, and `piece.rt`, which measures one piece.
#![tactic(auto)]

mod bytes;
mod piece;
mod scan;
mod token;

pub use bytes::{Class, Run};
pub use scan::{lex, never_both, one_refusal, one_token_list, tokens_or_refusal};
pub use token::{Token, TokenKind};
