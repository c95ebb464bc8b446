//! The laws of the meaning of a design: the order of its processes makes no difference, settling is the first quiet
//! state, and values have their static widths.
//!
//! It leaves the definitions to `vh_tree`, and their equations and inductions to `vh_tree_equations`. No call here does
//! anything. The laws of the simulator, the simulator and the bench cite it.
//! Begin with `specs/Laws.antt`, which states the laws, then `meaning_laws.rt`.
#![tactic(auto)]

mod meaning_laws;

pub use meaning_laws::{order_law, settling_law, width_law};
