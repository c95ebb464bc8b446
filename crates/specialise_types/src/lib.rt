//! Closed types by numbers: the types of a declaration's nodes in an instance, types of fields at arguments, and how many nodes
//! types have.
//!
//! It leaves the table in which each type stands once to `rw_types_shared`, and which instances there are to the crates above.
//! The table of closed data types and the search for instances use it. Begin with `closing.rt`; the words are in
//! `rw_types_instances`.
#![tactic(auto)]

mod closing;
mod counting;
mod fields;

pub use closing::{argument, closed_nodes, unit};
pub use counting::{count, count_all};
pub use fields::{field_type, field_types};
