//! Each source has a verdict: it is a program, or breaks one of the rules E01 to E16 first, at one place.
//!
//! It leaves what a verdict is, and that there is one at most, to `rw_front`, and that each rule has an answer to the laws of the
//! rules' own rooms. It has laws, and no code that runs. Begin with `specs/Total.antt`, then `laws.rt`.
#![tactic(auto)]

mod laws;

pub use laws::{
    accepted_programs_are_typed, each_source_has_a_verdict, names_patterns_and_start_are_judged,
    sources_are_read, types_are_judged,
};
