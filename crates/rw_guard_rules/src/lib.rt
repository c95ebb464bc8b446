//! When a flat program is guarded, so that each of its devices answers each input: must-signal terms, guarded calls and calls in tail
//! position, the rules on cycles of calls, weight and depth; and the verdict by the rules E19 to E25.
//!
//! It leaves finding all that to a call above it, and totality too. It has definitions and laws, and no code that runs.
//! Begin with `specs/Signals.antt`, then `specs/Rules.antt` and `specs/Verdict.antt`.
#![tactic(auto)]

mod laws;

pub use laws::{
    must_signal_is_decided, one_verdict_on_guards, ranks_are_no_waiting, ranks_leave_no_cycle,
};
