//! Traces: from the bytes of a trace to the bits of its lines, or to the first line that is refused; from these bits to
//! the values that they encode; and the lines that are printed.
//!
//! It leaves what bits stand for a value to `rw_core`. `rewire sim` reads its inputs and prints its readings with it.
//! Begin with `specs/Traces.antt` and `lines.rt`, then `specs/TraceValues.antt` and `values.rt`.
#![tactic(auto)]

mod fail;
mod laws;
mod lines;
mod printed;
mod values;

pub use fail::TraceFail;
pub use laws::refused_law;
pub use lines::to_bits;
pub use printed::{line, push_line};
pub use values::to_values;
