//! Finds the let groups of a program in which bindings depend on themselves, E12, exactly as `rw_scope_rules` defines it.
//!
//! It leaves what the rule is to `rw_scope_rules`, the nodes of a tree to `rw_scope_nodes`, and the search for circles to
//! `rw_scope_graph`. Scoping calls it with the bound tree. Begin with `group.rt` and `cycles.rt`.
#![tactic(auto)]

mod cycles;
mod graph;
mod numbers;
mod owners;

pub use cycles::cyclic;
