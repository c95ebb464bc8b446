// Machines.

use crate::PFun;
use rw_core::TyTable;
use rw_core_flat::System;
use sqlite_items::Items;

/// A device as a machine: the types of its inputs, outputs and states, and the numbers of three pure functions. `reset` has no
/// parameter and gives the first state; `next` gives from a state and an input the state after it; `shown` gives from a state the
/// output that is shown in it.
#[derive(Drop)]
pub struct Leaf {
    pub input: u32,
    pub output: u32,
    pub state: u32,
    pub reset: u32,
    pub next: u32,
    pub shown: u32,
}

/// A machine: its closed data types, its pure functions in call order, its leaves, its system, whose devices are numbers of leaves,
/// and the types of the system's input and output.
#[derive(Drop)]
pub struct Machine {
    pub table: TyTable,
    pub pures: Items<PFun>,
    pub leaves: Items<Leaf>,
    pub system: System,
    pub input: u32,
    pub output: u32,
}
