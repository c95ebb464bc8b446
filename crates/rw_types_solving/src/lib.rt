//! Solves equations between types with variables, exactly and most generally, as `specs/Tables.antt` says.
//!
//! It leaves to others which equations a program gives: it knows no tree, no name and no signature.
//! The inference of types is to use it: it states each equation by `Table::equate` as it meets it.
//! Begin with `term.rt` and `table.rt`, then `specs/Types.antt` and `specs/Tables.antt`.
#![tactic(auto)]

mod close;
mod condition;
mod differ;
mod failure;
mod general;
mod resolve;
mod table;
mod term;

pub use close::{closed, closed_all};
pub use condition::{all_hold, is_state_monad};
pub use failure::{NoSolution, Unsolved};
pub use table::Table;
pub use term::{Head, Sort, Term, copied, count, has, instance, top};
