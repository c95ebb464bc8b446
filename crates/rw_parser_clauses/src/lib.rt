//! The expressions of a source, its clauses and its blocks of local declarations: the tree that tokens begin with
//! (Haskell 2010 Report, chapter 3, sections 4.4.3 and 10.5, in this project's profile).
//!
//! It meets the functions on lists of `rw_parser_reading`, and leaves whole programs and the grouping of operators to the crates
//! above. The parser stands on it. Begin with `read.rt`; brackets and blocks go down in `nested.rt`, and each of the
//! other files reads one kind of thing over the readers of what stands inside (`inside.rt`). The grammar rule stands
//! above each function.
#![tactic(auto)]

mod chain;
mod clause;
mod inside;
mod local;
mod nested;
mod operand;
mod read;
mod side;
mod statement;

pub use read::{read_clause, read_expression, read_locals};
