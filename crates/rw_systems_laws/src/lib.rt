//! Laws of systems: what stands at the nodes of a tree, but for what its names are bound to, does not matter to its system.
//!
//! Nothing here runs, and nothing waits for it: stages that take apart a typed `start` are to be proved with it.
//! Begin with `specs/Annotated.antt`.
#![tactic(auto)]

mod laws;

pub use laws::annotations_do_not_matter;
