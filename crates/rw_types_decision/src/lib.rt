//! Whether a declaration has a typing is decided: it has a default typing, or none at all.
//!
//! It leaves what a typing is to `rw_types_rules`, that typings are assignments to numbers to `rw_types_numbering`, and that
//! equations are solved to `rw_types_unifiers`; `rw_types` does the same within bounds of memory. It has laws, and no code that
//! runs. `rw_front_laws` stands on it. Begin with `laws.rt`.
#![tactic(auto)]

mod laws;

pub use laws::typability_is_decided;
