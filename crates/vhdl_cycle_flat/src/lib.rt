//! Runs designs whose names are places: expressions, statements, processes and delta cycles over flat buffers of bits.
//!
//! It leaves finding the places to `vhdl_cycle_resolve`, and what a run says of a design to `vhdl_cycle`. No call here takes
//! memory. Begin with `resolved.rt` and `process.rt`, the trees, and `specs/Flat.antt`, what they mean; then `run.rt`,
//! `delta.rt` and `cycles.rt`. `specs/Names.antt` and `specs/Resolving.antt` say how they stand for a design.
#![tactic(auto)]

mod cycles;
mod delta;
mod leaves;
mod process;
mod resolved;
mod run;
mod slot;

pub use cycles::settle;
pub use delta::run_processes;
pub use process::{Check, Drive, Place, Process, Row, World};
pub use resolved::{Bit, Branch, Expr, Fun, Stmt, Test};
pub use run::{append_expr, run_all};
pub use slot::{Resolved, Slot};
