//! What a typing of a declaration is: definitions on typed trees, which are bound trees whose nodes carry types.
//!
//! It leaves finding a typing to the inference of types above it, and equations on types to `rw_types_solving`.
//! The inference of types, and what stands on typed trees, use it.
//! Begin with `specs/WellTyped.antt` and `specs/Typings.antt`; `specs/Schemes.antt` has the types of names.
#![tactic(auto)]

mod kind;

pub use kind::VariableKind;
