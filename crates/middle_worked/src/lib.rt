//! A small system in each language of the middle, on which the prover computes what the definitions say.
//!
//! Begin with `specs/Toggle.antt`, then `toggle.rt`.
#![tactic(auto)]

mod toggle;

pub use toggle::{shown_as_layered, shown_as_machine, shown_as_plan, shown_as_trees, typed_trees};
