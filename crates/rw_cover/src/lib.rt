//! Rule E14 over a whole program: whether the patterns of each function, `case`, lambda, pattern binding and `<-` cover, and
//! if they don't, the first place in the source where that is so.
//!
//! It leaves whether rows cover to `rw_cover_matrix`, what the answers mean for a typed program to `rw_cover_laws`, and finding
//! types to typing: it needs none.
//! The front of the compiler asks it after typing. Begin with `program.rt` and `clause.rt`, then `specs/Correct.antt`,
//! `specs/Coverage.antt` and `specs/Rows.antt`.
#![tactic(auto)]

mod clause;
mod group;
mod known;
mod laws;
mod named;
mod pattern;
mod place;
mod program;

pub use clause::{clauses_cover, patterns_cover};
pub use known::{Known, constructor_counts};
pub use laws::{left_over_law, places_law};
pub use named::known_of;
pub use program::cover;
