//! Small flat programs, on which the prover computes what the definitions of the middle's languages say.
//!
//! Begin with `specs/Toggle.antt`, then `toggle.rt`; `specs/TypedToggle.antt` has the typed program that a toggle comes from,
//! and `specs/Broken.antt` programs that break a rule.
#![tactic(auto)]

mod flattened;
mod toggle;
mod verdicts;

pub use flattened::{
    data_types_are_listed, instances_are_listed, the_toggle_flattens, the_toggle_is_weighed,
};
pub use toggle::{guarded, loop_has_no_ranks, outputs};
pub use verdicts::{a_device_returns, a_device_spins, a_loop_recurses};
