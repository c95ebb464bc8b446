// A whole design: one entity with the ports `clk`, `rst`, `inp` and `outp`, and its architecture.

use crate::{Function, Process, Var};
use sqlite_items::Items;

/// What is declared in the architecture.
#[derive(Drop)]
pub enum Item {
    Signal(Var),
    Function(Function),
}

/// A design: the widths of `inp` and `outp` in bits, what is declared, in order, and the processes, in order.
#[derive(Drop)]
pub struct Design {
    pub inp: u32,
    pub outp: u32,
    pub items: Items<Item>,
    pub processes: Items<Process>,
}
