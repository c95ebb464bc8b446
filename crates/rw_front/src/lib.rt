//! The front: from the bytes of a source to a typed program, or the first of the rules E01 to E16 that the source breaks.
//!
//! It leaves each stage to the crate of that stage, and says what their answers say together. `rewire_top` calls it for
//! `check`. Begin with `specs/Verdict.antt`, then `source.rt`.
#![tactic(auto)]

mod laws;
mod prelude_text;
mod read;
mod report;
mod source;
mod stages;

pub use laws::one_verdict;
pub use prelude_text::prelude;
pub use source::{Checked, front};
