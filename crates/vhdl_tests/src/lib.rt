//! The tests of VHDL: designs as texts and texts as designs, the static rules, names resolved to places, delta cycles, and the plain
//! simulator that the definitions are computed by.
//!
//! It leaves the definitions computed by proof to `vhdl_worked`, and traces to `machine_tests`. Only `command_tests` uses it, for its
//! texts: it stands apart so that a stage is proved once, and not once more beside its tests. Begin with `print.rt` and `read.rt`, then
//! `cycle.rt`.
#![tactic(auto)]

#[cfg(test)]
mod cycle;
#[cfg(test)]
mod designs;
#[cfg(test)]
mod names;
#[cfg(test)]
mod plain;
#[cfg(test)]
mod print;
#[cfg(test)]
mod read;
#[cfg(test)]
mod resolve;
#[cfg(test)]
mod static_rules;
pub mod texts;
