//! Selected programs and plans as languages. In a selected program the body of each function is a tree of decisions, so that only what
//! is taken is evaluated. A plan has besides, for a whole system, what it shows and what each leaf is given.
//!
//! It leaves making either to the stages above. It has types, definitions and laws, and no code that runs.
//! Begin with `tree.rt` and `specs/Trees.antt`, then `specs/Plans.antt`.
#![tactic(auto)]

mod laws;
mod plan;
mod selected;
mod tree;

pub use laws::typed_trees_give_values;
pub use plan::{Plan, Wiring};
pub use selected::Selected;
pub use tree::{SBranch, SFun, SOther, STerm, STree};
