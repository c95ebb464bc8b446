//! Binds the names of a program: gives its tree again, with what each name is bound to, exactly as `rw_scope_rules` defines
//! it.
//!
//! It leaves what the bindings are to `rw_scope_rules`, and the question whether a rule is broken to the crates above.
//! Scoping uses it. A name is looked up by hash, at top level and among local names alike.
//! Begin with `locals.rt`, which keeps the local names, and `tops.rt`; `expr.rt` and `clause.rt` copy the tree.
#![tactic(auto)]

mod annotation;
mod clause;
mod enter;
mod expr;
mod fill;
mod group;
mod laws;
mod locals;
mod pattern;
mod program;
mod table;
mod tops;

pub use laws::annotation_law;
pub use program::bind;
