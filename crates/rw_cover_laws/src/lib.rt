//! Types as matching sees them: the shapes that a type has, and which types the columns of the rows have that have to cover
//! in a typed program.
//!
//! It leaves what a typing is to `rw_types_rules`, rows and groups to `rw_cover`, and whether they cover to `rw_cover`. It has
//! definitions and laws, and no code that runs.
//! Whoever uses the answers of `rw_cover` behind typing stands on it. Begin with `specs/Shapes.antt` and `specs/Columns.antt`.
#![tactic(auto)]

mod laws;

pub use laws::{
    exact_law, instances_law, shape_law, typable_law, typed_rows_law, typings_law, values_law,
};
