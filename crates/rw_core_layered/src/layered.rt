// Layered programs.

use crate::{DFun, PFun};
use rw_core::TyTable;
use rw_core_flat::System;
use sqlite_items::Items;

/// A layered program: its closed data types, its pure functions in call order, its devices, its system, whose devices are numbers of
/// devices and whose functions are numbers of pure functions, and the types of the system's input and output.
#[derive(Drop)]
pub struct Layered {
    pub table: TyTable,
    pub pures: Items<PFun>,
    pub devices: Items<DFun>,
    pub system: System,
    pub input: u32,
    pub output: u32,
}
