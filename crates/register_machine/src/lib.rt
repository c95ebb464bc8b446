//! Machines with one register: a Moore machine given by tables, the design that shows it, and the law that the
//! design shows exactly the machine's outputs.
//!
//! It leaves printing and simulating the design to the crates of the VHDL side, and what the bits of a type are to
//! `bit_layout`.
//! Whatever becomes one register with a next state and an output is made into a design here.
//! Begin with `machine.rt`, then `specs/Machine.antt` and `specs/Design.antt`; `laws.rt` says what the design shows.
#![tactic(auto)]

mod codes;
mod decision;
mod emit;
mod functions;
mod laws;
mod machine;
mod parts;
mod processes;

pub use emit::design;
pub use laws::{code_law, machine_law, register_law, spellable_law, static_law};
pub use machine::{Machine, State};
