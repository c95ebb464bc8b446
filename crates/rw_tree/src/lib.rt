//! The trees that the front of the compiler shares: the types of expressions, patterns, clauses, declarations and
//! programs over any annotation of their nodes, with their plain forms. It has no code.
//!
//! It leaves reading, scope and types to the crates above, and copies to `rw_tree_copies`: it says what a tree is, and
//! not which tree is good. Every stage of the front, from the parser to the verdict on a source, takes or gives these
//! trees, and the meaning of a source is said of them.
//! Begin with `expr.rt` and `clause.rt`, then `specs/Trees.antt`, which says their plain forms.
#![tactic(auto)]

mod clause;
mod decl;
mod expr;
mod pattern;
mod program;
mod types;

pub use clause::{Alt, Guard, Local, Rhs, Stmt};
pub use decl::{Constructor, DataDecl, Decl, Side};
pub use expr::Expr;
pub use pattern::Pat;
pub use program::Program;
pub use types::{Kind, Written};
