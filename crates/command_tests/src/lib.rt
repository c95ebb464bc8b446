//! The tests of the one call behind `main` at its limits, on files in memory: what no line of `rewire_gallery` reaches.
//!
//! It leaves the devices of `examples/` and what is refused to `rewire_gallery`. Nothing uses it: it stands apart so that the call
//! is proved once, and not once more beside its tests. Begin with `limits.rt`.
#![tactic(auto)]

#[cfg(test)]
mod limits;
#[cfg(test)]
mod worked;
