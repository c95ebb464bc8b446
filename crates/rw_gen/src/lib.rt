//! The stated workload: sources of devices that walk among named states, and the inputs that they are run on.
//!
//! It leaves judging and running the sources to others, and the random words to `rand_pcg`, whose generator it names.
//! The `stress` command and every measurement use these sources and inputs.
//! Begin with `specs/Workload.antt`, which says what is drawn and what is written.
#![tactic(auto)]

mod draws;
mod lines;
mod workload;

pub use workload::{inputs, source};
