//! The laws of typings: what a substitution keeps, that a default typing is a typing without variables and the only one,
//! and the types of an instance. Each law is the contract of a function that does nothing.
//!
//! It leaves what a typing is to `rw_types_rules`, and finding one to `rw_types`. It has no code that runs.
//! What stands on the typed trees of a program cites it. Begin with `laws.rt`; the words are in `rw_types_instances`.
#![tactic(auto)]

mod laws;

pub use laws::{
    closed_by_law, default_typing_law, instance_law, one_default_law, schemes_law,
    substitution_law, typing_law,
};
