//! The order of a let group: its bindings one after the other, each after those that bind the names that it mentions.
//!
//! Whether each group has such an order is a rule of `rw_scope_rules`, which scoping decides. Nothing here runs: stages that
//! take a group apart binding by binding are to be proved against these definitions.
//! Begin with `specs/Placing.antt`, then `specs/Groups.antt`.
#![tactic(auto)]

mod laws;

pub use laws::{never_placed_are_left_over, placed_after_what_it_mentions};
