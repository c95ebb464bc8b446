//! Graphs whose nodes wait for nodes: which of them can't be put into an order in which each node comes after all that it
//! waits for, and which lead back to themselves.
//!
//! It leaves what the nodes are to the crates above: here they are numbers, and a graph is the list of what each waits for.
//! The rules on data types and on let groups stand on it.
//! Begin with `specs/Waiting.antt`, then `search.rt`.
#![tactic(auto)]

mod circle;
mod search;
mod stack;

pub use circle::circular;
pub use search::stuck;
