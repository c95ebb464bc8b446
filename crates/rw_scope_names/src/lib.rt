//! Finds the places at which a program breaks the rules on names, each exactly as `rw_scope_rules` defines them: E06, imports;
//! E07, one declaration for a name; E08, every name is bound; E09, signatures and bindings pair.
//!
//! It leaves what the rules are to `rw_scope_rules`, the nodes of a program to `rw_scope_nodes`, and binding names to `rw_scope_binding`.
//! Scoping uses it; it answers with all places of a rule, in their order, and `earliest` of `rw_scope_rules` finds the first.
//! Begin with `imports.rt`, `top.rt`, `inside.rt`, `bound.rt` and `pairs.rt`, which have the rules.
#![tactic(auto)]

mod bound;
mod gather;
mod imports;
mod inside;
mod known;
mod names;
mod pairs;
mod places;
mod repeated;
mod taken;
mod top;
mod types;
mod uneven;
mod variables;

pub use bound::unbound;
pub use imports::unknown_modules;
pub use inside::{declared_twice, repeated_in_functions};
pub use pairs::unpaired;
pub use top::repeated_at_top;
