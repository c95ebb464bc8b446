//! What scoping is: what each name of a program is bound to, when the rules E06 to E12 on names, signatures, kinds,
//! data types and let groups are broken, and which of them is the first, at its first place.
//!
//! It leaves finding them to a crate above: here are the definitions, the annotation of a scoped tree, the first of several
//! places, and laws.
//! Scoping, typing, coverage and the meaning of a source stand on these bindings.
//! Begin with `binding.rt` and `specs/Bindings.antt`, then `specs/Scope.antt` and `specs/Verdict.antt`.
#![tactic(auto)]

mod binding;
mod laws;
mod places;
mod scoped;

pub use binding::{Binding, Bound, Operation};
pub use laws::verdict_law;
pub use places::{earliest, stands_before};
pub use scoped::Scoped;
