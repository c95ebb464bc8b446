//! The designs of the VHDL subset: what a text spells, what the compiler makes, and what is simulated.
//!
//! It leaves the laws of its definitions to `vh_tree_equations`, `vh_tree_reading`, `vh_tree_spelling` and
//! `vh_tree_laws`, and printing, reading and simulating to the crates above, which see a `Design` and its definitions
//! alone. Begin with `design.rt`, then `expr.rt`; what a text spells stands in `specs/Spelling.antt`, and what a design
//! means in `specs/DeltaCycle.antt`.
#![tactic(auto)]

mod clock;
mod design;
mod expr;
mod function;
mod ident;
mod process;
mod stmt;
mod token;
mod wire;

pub use clock::rising;
pub use design::{Design, Item};
pub use expr::VExpr;
pub use function::{Function, Var};
pub use ident::Ident;
pub use process::Process;
pub use stmt::{Branch, Test, VStmt};
pub use token::{Mark, Side, Token};
pub use wire::{Held, Moment, Settled, State, Wire};
