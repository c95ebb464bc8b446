//! There is one verdict at most on each source, by all rules.
//!
//! It leaves what the verdict is to `rw_pipe_rules`. It has a law, and no code that runs. Begin with `laws.rt`; the stages one by one
//! are in `proofs/`.
#![tactic(auto)]

mod laws;

pub use laws::one_whole_verdict;
