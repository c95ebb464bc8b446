//! Plain, slow functions that compute what a design means, each with the definition as its contract: the value of a
//! function, a delta cycle in a given order, settling, and the bench. Tests compute worked examples with them.
//!
//! It leaves speed to the simulator, and checks no static rule: what a name of nothing means, it means here.
//! Tests use it; nothing that the program calls does. Begin with `expr.rt`.
#![tactic(auto)]

mod bits;
mod changes;
mod delta;
mod expr;
mod fail;
mod function;
mod process;

pub use changes::{bench, reading, risen, start, with_input};
pub use delta::{next_state, quiet, settle};
pub use expr::{append_call, append_function, append_value};
pub use fail::PlainFail;
