//! The law of matching: evaluation by need takes a pattern, a row, or a row of those that cover, exactly where the coverage
//! matrix says that a value matches it.
//!
//! It leaves evaluation to `rw_meaning`, the matrix to `rw_cover_matrix` and `rw_cover`, and the shapes of types to
//! `rw_cover_laws`. It has definitions and laws, and no code that runs.
//! Begin with `specs/Standing.antt`, then `specs/Exact.antt` and `specs/Matching.antt`.
#![tactic(auto)]

mod laws;

pub use laws::{
    covered_rows_take_each_value, patterns_are_matched, rows_are_matched, typed_patterns_are_exact,
    typed_rows_are_exact, values_are_embedded, variables_see_values,
};
