//! The rules on `start` and on systems, E15 and E16: whether `start` is a proper device, and whether `par` and `refold`
//! stand only where they make its system, exactly as `specs/` defines them.
//!
//! It leaves taking the body of `start` apart to `rw_systems`. The front of the compiler asks it last, when all other rules
//! are kept. Begin with `specs/Start.antt` and `specs/Positions.antt`, then `check.rt`, which stands on `start.rt` and
//! `system.rt`.
#![tactic(auto)]

mod check;
mod device;
mod laws;
mod names;
mod start;
mod system;

pub use check::check_start;
pub use laws::start_law;
