//! What an instance of a typed declaration names, and the types of its nodes, by the numbers of the declaration's nodes.
//!
//! It leaves the names and the nodes of a numbered declaration to `specialise_mentions`, and has no code that runs. The search for instances uses
//! it. Begin with `laws.rt`.
#![tactic(auto)]

mod laws;

pub use laws::{mentioned_law, types_law};
