//! The tests of bits and machines: values and their bits, the design of a machine, and lines of a trace.
//!
//! It leaves designs as texts to `vhdl_tests`. Nothing uses it: it stands apart so that a stage is proved once, and not once more
//! beside its tests. Begin with `encoding.rt`.
#![tactic(auto)]

#[cfg(test)]
mod encoding;
#[cfg(test)]
mod machine;
#[cfg(test)]
mod trace;
