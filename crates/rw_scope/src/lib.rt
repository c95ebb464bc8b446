//! Scoping: what each name of a program is bound to, or the first of the rules E06 to E12 that the program breaks, at its
//! first place, exactly as `rw_scope_rules` defines them.
//!
//! It leaves finding the places of each rule to `rw_scope_names`, `rw_scope_kinds` and `rw_scope_groups`, and binding names to `rw_scope_binding`.
//! Typing stands on its answer. Begin with `program.rt`.
#![tactic(auto)]

mod program;
mod refuse;

pub use program::scope;
