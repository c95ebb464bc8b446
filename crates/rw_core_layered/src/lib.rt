//! Layered programs and machines as languages. In a layered program the states of devices have become parameters and results: it has
//! pure functions, each of which calls earlier ones alone, devices without layers, and a system of them. In a machine each device of
//! the system has become a state with the functions that begin it, let it go on, and show it.
//!
//! It leaves making either to the stages above. It has types, definitions and laws, and no code that runs.
//! Begin with `pure.rt` and `specs/Pures.antt`, then `specs/Layered.antt` and `specs/Machines.antt`.
#![tactic(auto)]

mod device;
mod laws;
mod layered;
mod machine;
mod pure;

pub use device::{DArm, DArms, DFun, DRow, DTerm};
pub use laws::{budgets_grow_of_devices, one_list_of_layered};
pub use layered::Layered;
pub use machine::{Leaf, Machine};
pub use pure::{PArm, PArms, PFun, PLet, PRow, PTerm};
