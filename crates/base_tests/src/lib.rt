//! The tests of the base, of the shape of a pass, and of the stated workload: worked values, and the answers of calls with ample
//! memory.
//!
//! It leaves what the calls mean to their contracts. Nothing uses it: it stands apart so that these crates, on which all others
//! stand, are proved once, and not once more beside their tests. Begin with `outside.rt`.
#![tactic(auto)]

#[cfg(test)]
mod outside;
#[cfg(test)]
mod pass;
#[cfg(test)]
mod workload;
