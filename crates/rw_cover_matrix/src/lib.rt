//! Coverage of rows of patterns: whether each list of values, one for each column, matches some row.
//!
//! It leaves names and types to the crates above: a pattern here has a constructor's place and the number of its type's
//! constructors, and the theorem holds for all types of columns at which the rows may stand.
//! The coverage of a program's clauses stands on it.
//! Begin with `pattern.rt` and `decide.rt`, then `specs/Values.antt`, `specs/Matching.antt` and `specs/Coverage.antt`.
#![tactic(auto)]

mod copy;
mod decide;
mod measures;
mod pattern;
mod sort;

pub use decide::covers;
pub use pattern::Pattern;
