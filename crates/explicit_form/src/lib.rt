//! The explicit form: sources with written braces, in which each function shows one output and goes on by one case
//! on the input. This crate reads such a source, judges its names, and makes its design.
//!
//! It leaves tokens to `rw_lex`, printing to `vhdl_print`, and every other source to the compiler's front.
//! The program's one call compiles by it. Begin with `specs/Grammar.antt`, then `form.rt`.
#![tactic(auto)]

mod fit;
mod form;
mod judge;
mod law;
mod names;
mod read;
mod source;
mod taken;
mod words;

pub use form::{Arm, Data, Form, Function, Ports};
pub use law::compiled_law;
pub use source::{compile, read_machine};
