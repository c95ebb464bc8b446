//! A guarded flat program denotes exactly one list of outputs for every list of values of its input type.
//!
//! It leaves to others that a program is guarded. It has the types of flat terms as definitions, one law, and no code that runs.
//! Begin with `specs/Guarded.antt`, then `laws.rt`; the induction is in `proofs/Total.antt`.
#![tactic(auto)]

mod laws;

pub use laws::guarded_is_total;
