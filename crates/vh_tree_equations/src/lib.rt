//! What the folds of `vh_tree` give, production by production, and induction on expressions and statements.
//!
//! It leaves the definitions to `vh_tree`, and holds lemmas alone: nobody needs to believe them, and no call here does
//! anything. The judge of the static rules, the simulator, the machine's design and `vh_tree_laws` are proved by them.
//! Begin with `specs/Equations.antt`: its equations of meaning are the contracts of `equation_laws.rt`.
#![tactic(auto)]

mod equation_laws;

pub use equation_laws::{expression_law, statement_law};
