//! Types as numbers of shared nodes: each node stands once in a table, so that two types are the same exactly where their
//! numbers are, and a table is as large as the types' distinct nodes (`specs/Shared.antt`).
//!
//! It leaves to others which types there are. The answer of inference is to use it, and whoever compares types of a program.
//! Begin with `node.rt` and `types.rt`; `share.rt` puts types with variables into a table, with their variables closed.
#![tactic(auto)]

mod laws;
mod node;
mod share;
mod types;

pub use laws::{types_as_numbers, types_in_nodes};
pub use node::Node;
pub use share::share_all;
pub use types::Types;
