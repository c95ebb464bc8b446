//! What a source means: evaluation by need, what actions do, and the outputs of devices and systems (Haskell 2010 Report,
//! chapter 3, and the monads of reactive resumptions over layers of state), as definitions over the scoped tree.
//!
//! Nothing here runs: no code evaluates the tree of a source. The compiler's stages are to be proved against these
//! definitions, which crates above stand on.
//! Begin with `specs/Results.antt`, then `specs/Evaluation.antt`, `specs/Trace.antt` and `specs/Outputs.antt`;
//! later laws are stated on the words of `specs/Steps.antt`.
#![tactic(auto)]

mod given;
mod laws;

pub use given::{
    actions_step, application_in_parts, devices_show, evaluation_steps,
    realised_systems_are_denoted, values_stand,
};
pub use laws::{one_list_is_denoted, one_more_output_than_inputs, outputs_last, results_last};
