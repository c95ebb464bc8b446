// Selected programs.

use crate::SFun;
use rw_core::TyTable;
use rw_core_flat::System;
use rw_core_layered::Leaf;
use sqlite_items::Items;

/// A machine whose functions are trees of decisions: its closed data types, its functions in call order, its leaves, its system, whose
/// devices are numbers of leaves, and the types of the system's input and output.
#[derive(Drop)]
pub struct Selected {
    pub table: TyTable,
    pub pures: Items<SFun>,
    pub leaves: Items<Leaf>,
    pub system: System,
    pub input: u32,
    pub output: u32,
}
