//! The nodes of a program's functions as a list of references, in the order in which `rw_scope_rules` defines them: each
//! expression, pattern, clause, let group, local binding and statement, a node before what stands in it.
//!
//! It leaves what is asked of a node to its callers: whatever has to look at each node of a tree goes over this list.
//! Scoping uses it. The walk keeps what is left to do in a list of its own, so that no call stands inside another however
//! deep the tree is. Begin with `node.rt` and `walk.rt`; `task.rt` has what is left to do, and `step.rt` one step.
#![tactic(auto)]

mod node;
mod parts;
mod step;
mod task;
mod walk;

pub use node::Node;
pub use walk::{
    nodes, nodes_of_binding, nodes_of_declaration, nodes_of_pattern, nodes_of_patterns,
};
