//! What a flat program for a source denotes, the source denotes; and what an expression flattens to with its types, which is one term
//! at most, it flattens to without them.
//!
//! It leaves which flat programs a source has to `inline_ho_rules`, and that there is something to denote to `rw_guard_laws`. It has
//! laws, and no code that runs. Begin with `laws.rt`; the induction is in `proofs/Denoted.antt`.
#![tactic(auto)]

mod laws;

pub use laws::{
    flat_functions_mean_their_declarations, flat_programs_mean_their_source,
    flat_programs_of_typed_ones_mean_them, guarded_programs_denote_the_same,
    instances_have_one_flat_program, typed_expressions_flatten_once,
    typed_flattening_is_flattening,
};
