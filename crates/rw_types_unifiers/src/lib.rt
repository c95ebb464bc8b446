//! Each list of equations between types has a most general unifier, or none unifies it (Robinson, 1965).
//!
//! It leaves what types and substitutions are to `rw_types_solving`, whose call does the same within bounds of size and memory. It
//! has laws, and no code that runs. `rw_types_decision` stands on it. Begin with `specs/Unifiers.antt`, then `laws.rt`.
#![tactic(auto)]

mod laws;

pub use laws::equations_are_solved;
