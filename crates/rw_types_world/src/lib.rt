//! Makes the world of a program from its declarations: its data types, and the types of its functions and constructors,
//! exactly as `rw_types_rules` defines them.
//!
//! It leaves types as written to `rw_types_equations`, and the uses of type variables to `rw_scope_uses`.
//! The inference of types is to use it, once for a program. Begin with `whole.rt`, then `signature.rt` and `made.rt`.
#![tactic(auto)]

mod kinds;
mod made;
mod signature;
mod signed;
mod variables;
mod whole;

pub use whole::world;
