//! Each program that tokens spell has a verdict on its chains of operators: it resolves to one of at most 512 levels, or an
//! item of it is the first that does not.
//!
//! It leaves what a chain's tree is to `rw_parser_grammar`, and that no program has two verdicts to `rw_parser_chains`. It has
//! laws, and no code that runs. `rw_front_laws` stands on it. Begin with `laws.rt`, then `proofs/Judged.antt`.
#![tactic(auto)]

mod laws;

pub use laws::each_program_is_judged;
