//! The cycle simulator: runs a design delta cycle by delta cycle, change by change (IEEE Std 1076-1993, section 12.6.4).
//!
//! It meets `settled`, `clocked` and `outp_of` of `vh_tree`, under every order of the processes. It leaves the static
//! rules to `vh_tree_static`, places in place of names to `vhdl_cycle_resolve`, and the running itself to `vhdl_cycle_flat`. The program calls
//! it for traces. Begin with `sim.rt` and `specs/Simulating.antt`.
#![tactic(auto)]

mod filled;
mod sim;
mod unsettled;

pub use sim::Sim;
pub use unsettled::NotSettled;
