//! Numbers the nodes of a bound declaration: each node has a number for its type, and after it one for each argument of its
//! instance. With the numbers come their kinds, in order.
//!
//! It leaves what a typing is to `rw_types_rules`, and what types the numbers stand for to `rw_types_equations`.
//! The inference of types begins with it. Begin with `specs/Slots.antt` and `specs/Labelled.antt`, then `number_declaration`.
//! Typed trees are exactly assignments of types to the numbers: `definitions.rt` says so of the definitions, `laws.rt` of the
//! numbered trees.
#![tactic(auto)]

mod clause;
mod declaration;
pub mod definitions;
mod expr;
mod group;
mod label;
mod laws;
mod pattern;
mod statement;

pub use declaration::number_declaration;
pub use label::{constructed_at, declared_at};
pub use laws::{assignment_law, erased_law, instance_law, seen_law, typing_law};
