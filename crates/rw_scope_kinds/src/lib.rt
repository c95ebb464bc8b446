//! Finds the places at which the types of a program are wrong: those of a wrong kind, E10, and the data types that are
//! recursive or empty, E11, each exactly as `rw_scope_rules` defines them.
//!
//! It leaves what the rules are to `rw_scope_rules`, the nodes of a tree to `rw_scope_nodes`, and at which kinds the variables
//! of a type stand to `rw_scope_uses`. Scoping calls it once the rules on names are kept.
//! Begin with `wrong.rt` and `recursive.rt`; `uses.rt` tells whether uses agree, and `mentions.rt` what data types mention.
#![tactic(auto)]

mod laws;
mod mentions;
mod recursive;
mod uses;
mod variables;
mod wrong;

pub use laws::recursion_law;
pub use recursive::recursive_or_empty;
pub use wrong::misused;
