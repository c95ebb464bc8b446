//! What stages of the compiler mean, and the one law by which proved passes compose.
//!
//! It leaves every representation to the crates that own one: each says what it denotes by `Denotes`, and each later
//! stage is a `Pass` from one of them to the next.
//! Begin with `specs/Passes.antt`, then `pass.rt`.
#![tactic(auto)]

mod design;
mod pass;

pub use pass::{Denotes, Pass, Then};
