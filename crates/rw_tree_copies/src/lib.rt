//! Copies of the parts of a tree that a stage takes over as they stand: names, types as written, patterns and data types.
//! Each gives the same again, annotations included, or memory runs out.
//!
//! It leaves expressions, clauses, local bindings and statements to the stages: each makes those anew, since it changes what
//! stands at their nodes. Grouping, binding and numbering of a program call it; what a tree is stands in `rw_tree`.
//! Begin with `types.rt`, then `data.rt`.
#![tactic(auto)]

mod data;
mod names;
mod patterns;
mod types;

pub use data::copied_data;
pub use names::copied_names;
pub use patterns::{copied_pattern, copied_patterns};
pub use types::{copied_type, copied_types};
