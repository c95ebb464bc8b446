//! The laws of the grammar: tokens spell one program at most, and reading from left to right gives exactly that program,
//! or the place where there is none. Each law is the contract of a function that does nothing.
//!
//! It leaves what tokens spell to `rw_parser_grammar`, what reading computes to `rw_parser_reading`, and the code to the
//! crates of readers, which do not wait for it. `rw_parser` and `rw_front` stand on it.
//! Begin with `laws.rt`; of the proofs with `proofs/ReadTypes.antt`, which reads the smallest grammar exactly, and then
//! `proofs/ReadProgram.antt`.
#![tactic(auto)]

mod laws;

pub use laws::{
    clauses_are_read, deep_items_are_named, deep_trees_are_broken, expressions_are_read,
    frames_are_read, items_are_read, items_may_be_deeper, items_need_no_more, levels_are_enough,
    locals_are_read, one_expression_and_one_block, one_item, one_place, one_program,
    one_type_and_one_pattern, patterns_are_read, programs_are_read, types_are_read,
};
