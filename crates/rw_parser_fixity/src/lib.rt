//! The chains of operators of a program as trees: `resolve_fixity` puts for each chain the one tree that the fixities of
//! its operators allow, or gives the first item that has none or is too deep (Haskell 2010 Report, sections 4.4.2 and
//! 10.6, in this project's profile).
//!
//! It leaves what a chain's tree is to `rw_parser_grammar`, and one chain to `rw_parser_chains`; the parser calls it. Begin with
//! `program.rt`, which has the public call; `expr.rt` and `clause.rt` walk one item, `nodes.rt` puts parts together.
#![tactic(auto)]

mod clause;
mod expr;
mod items;
mod nodes;
mod program;

pub use program::resolve_fixity;
