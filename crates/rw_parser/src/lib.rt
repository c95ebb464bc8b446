//! The parser: `parse` gives the program that tokens spell, with each chain of operators grouped, or the place where they
//! break the grammar or a chain has no tree (Haskell 2010 Report, chapters 3 to 5 and 10, in this project's profile).
//!
//! It leaves tokens and layout to the crates below, types, patterns, clauses and chains to the readers of their own, and
//! what names mean to the crates above. Begin with `parser.rt`, then `program.rt`, which goes from run to run, and
//! `item.rt`, which reads one; `run.rt` finds where an item ends, and `kept.rt` says what is kept of it.
#![tactic(auto)]

mod item;
mod join;
mod kept;
mod parser;
mod program;
mod run;

pub use item::read_item;
pub use join::{Joined, closed};
pub use kept::{Kept, with_kept};
pub use parser::parse;
pub use run::{are_runs, run_length, tokens_from};
pub use rw_parser_fixity::resolve_fixity;
