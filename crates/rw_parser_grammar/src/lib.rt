//! The grammar of a source (Haskell 2010 Report, chapter 10.5, in this project's profile): which tree a list of tokens
//! spells, which tree a chain of operators is, and how deep a tree may be. It has the types of tokens and definitions,
//! and no code that runs.
//!
//! It leaves reading as functions on lists to `rw_parser_reading`, the laws of both to `rw_parser_laws`, and what names
//! and types mean to the crates above. The whole parser stands on it.
//! Begin with `specs/Grammar.antt`, which has a constructor for each alternative of the grammar, over the tokens of
//! `specs/Lexemes.antt` and the lists of `specs/Lists.antt`; then `specs/Chains.antt`.
#![tactic(auto)]

mod item;
mod lexeme;

pub use item::{Bound, Item};
pub use lexeme::{Lexeme, Mark, Spot};
