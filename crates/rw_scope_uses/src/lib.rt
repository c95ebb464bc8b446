//! Finds the uses of the type variables of a type: at which kinds each stands, exactly as `rw_scope_rules` defines it.
//!
//! It leaves what the kinds are to `rw_scope_rules`, and whether uses agree to `rw_scope_kinds`, which finds the types that
//! are wrong with it. The world of a program is made with it too.
//! Begin with `check.rt`, which stands on `context.rt` and `head.rt`.
#![tactic(auto)]

mod check;
mod context;
mod head;
mod table;
mod uses;

pub use check::add_uses;
pub use context::{Context, of_fields, of_signatures};
pub use table::Table;
pub use uses::Use;
