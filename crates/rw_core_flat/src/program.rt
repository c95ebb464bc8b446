// The flat program.

use crate::FlatFun;
use rw_core::TyTable;
use sqlite_items::{Boxed, Items};

/// A system: functions by their numbers, put together.
#[derive(Drop)]
pub enum System {
    /// A device by itself.
    Leaf(u32),
    /// Two side by side.
    Par(Boxed<System>, Boxed<System>),
    /// A device that is fed back: what is seen of its output, what its input is made from, and the device.
    Refold(u32, u32, Boxed<System>),
}

/// A flat program: its closed data types, its functions in order, its system, and the types of the system's input and output.
#[derive(Drop)]
pub struct Flat {
    pub table: TyTable,
    pub funs: Items<FlatFun>,
    pub system: System,
    pub input: u32,
    pub output: u32,
}
