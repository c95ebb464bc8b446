//! The program's one call: it reads the words, loads, checks, or compiles and saves, or simulates and prints, and answers with a status, whose line it
//! puts to `err`.
//!
//! It leaves every language to the crates below, and the system's files and streams to `rewire_cli`, whose `main`
//! calls it. What it promises is the theorem of the whole.
//! Begin with the clauses of `rewire` in `top.rt`, then `specs/Commands.antt` and `specs/Answers.antt`.
#![tactic(auto)]

mod check;
mod compile;
mod line;
mod simulated;
mod status;
mod top;
mod words;

pub use status::Status;
pub use top::rewire;
