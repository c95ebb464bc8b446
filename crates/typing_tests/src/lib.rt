//! The tests of the parts of typing and of systems: equations and their solutions, the world of a program, and the devices of a system.
//!
//! It leaves the types of sources, coverage and verdicts to `front_gallery`, and definitions computed by proof to `source_worked`.
//! Nothing uses it: it stands apart so that a stage is proved once, and not once more beside its tests. Begin with `solving.rt`.
#![tactic(auto)]

#[cfg(test)]
mod solving;
#[cfg(test)]
mod source;
#[cfg(test)]
mod systems;
#[cfg(test)]
mod world;
