//! Readers of types and patterns: the tree that tokens begin with (Haskell 2010 Report, section 10.5, in this project's
//! profile), and the tokens of a source as the grammar sees them, numbered.
//!
//! It meets the functions on lists of `rw_parser_reading`, and leaves what names and types mean to the crates above. Begin
//! with `types.rt`; `token.rt` has what all readers use. The grammar rule stands above each function.
#![tactic(auto)]

mod name;
mod number;
mod parts;
mod pattern;
mod token;
mod types;

pub use name::{constructor_name, variable_name};
pub use number::number_tokens;
pub use parts::added;
pub use pattern::{apat, apats, begins_apat, patterns, read_pattern};
pub use token::{after, few, next_spot, rest_of, same_mark, sees, span_at};
pub use types::{atype, atypes, begins_atype, written_type};
