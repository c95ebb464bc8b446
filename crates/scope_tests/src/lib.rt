//! The tests of scoping: bound names, the rule on each kind of name, circles of types and of functions, and the one call.
//!
//! It leaves the definitions to `rw_scope_rules` and computed programs to `source_worked`. It stands apart so that a rule is proved once,
//! and not once more beside its tests; `typing_tests` reads its sources by it too. Begin with `source.rt` and `names.rt`.
#![tactic(auto)]

#[cfg(test)]
mod binding;
#[cfg(test)]
mod graph;
#[cfg(test)]
mod groups;
#[cfg(test)]
mod kinds;
#[cfg(test)]
mod names;
#[cfg(test)]
mod scope;
mod source;

pub use source::program_of;
