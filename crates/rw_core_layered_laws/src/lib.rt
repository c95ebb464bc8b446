//! What a layered program denotes, it denotes as a flat program.
//!
//! It leaves both languages to the crates that own them. It has a law, and no code that runs. Begin with `laws.rt`.
#![tactic(auto)]

mod laws;

pub use laws::layered_programs_are_flat;
