//! Whether rows of patterns cover is decided: there is an answer, whatever the types of their columns are.
//!
//! It leaves what covering is to `rw_cover_matrix`, which groups of rows a program has to `rw_cover`, and that the answer is the
//! only one to `rw_cover_laws`. It has laws, and no code that runs. `rw_front_laws` stands on it. Begin with `laws.rt`.
#![tactic(auto)]

mod laws;

pub use laws::coverage_is_decided;
