//! The inference of types: the default typing of each declaration of a program, or E13 at the first that has none, exactly as
//! `rw_types_rules` defines them.
//!
//! It leaves numbers of nodes to `rw_types_numbering`, equations and their solution to `rw_types_equations` and `rw_types_solving`, and
//! the types of names to `rw_types_world`. Coverage and the passes of the middle stand on its answer.
//! Begin with `declaration.rt` and `program.rt`, then `specs/Inferred.antt`; `sorted.rt` judges sorts.
#![tactic(auto)]

mod carried;
mod declaration;
mod general;
mod kinds;
mod laws;
mod own;
mod place;
mod program;
mod solved;
mod sorted;
mod typed;

pub use declaration::infer_declaration;
pub use laws::{general_sort, general_state_monad, one_sort, same_types};
pub use program::infer;
pub use sorted::{all_sorted, is_of_sort};
pub use typed::TypedDecl;
