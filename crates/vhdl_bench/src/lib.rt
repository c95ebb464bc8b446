//! The bench: what a VHDL text shows on a trace, line by line.
//!
//! It leaves reading the text, reading the trace and simulating to the crates below, and files to the program. Begin
//! with `specs/Showing.antt`, then `bench.rt`.
#![tactic(auto)]

mod bench;
mod fail;
mod whole;

pub use fail::BenchFail;
pub use whole::simulate;
