//! Which tree the chains of operators of a program make it, computed: the tree of a chain is found from left to right with
//! a stack, that of a program part by part, and levels are counted on the way (Haskell 2010 Report, section 10.6).
//!
//! It leaves what a chain's tree is to `rw_parser_grammar`, whole trees to `rw_parser_fixity`, and the reading of chains to the parser.
//! Begin with `specs/Grouping.antt` and `specs/Resolving.antt`, and with the laws that join them to the relations.
#![tactic(auto)]

mod chain;
mod fixities;
mod laws;
mod levels;
mod unresolved;

pub use chain::{Counted, Waiting, close, settle};
pub use fixities::{Fixities, Strength};
pub use laws::{chains_are_grouped, one_program_resolved, trees_are_resolved};
pub use levels::{
    MAX_LEVELS, above, below, data_levels, pattern_fits, patterns_fit, type_fits, type_levels,
};
pub use unresolved::{Broken, Unresolved};
