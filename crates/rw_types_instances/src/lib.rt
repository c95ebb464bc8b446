//! Types and typed trees in an instance: a declaration at closed types for the variables of its signature.
//!
//! It leaves what a typing is to `rw_types_rules`, and the laws of instances to `rw_types_laws`. It has definitions, and no code that
//! runs. Begin with `specs/Instances.antt`.
#![tactic(auto)]
