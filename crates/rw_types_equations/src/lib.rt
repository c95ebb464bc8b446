//! The equations that say that the types of a declaration agree, and their most general solution.
//!
//! It leaves what a typing is to `rw_types_rules`, the solving of equations to `rw_types_solving`, the numbers of nodes to `rw_types_numbering`, and the
//! world of a program to `rw_types_world`. `rw_types` uses it. Each node of a tree has a variable, and so has each argument of an instance.
//! Begin with `numbered.rt` and `equation.rt`, then `specs/Numbered.antt` and `specs/Equations.antt`.
#![tactic(auto)]

mod clause;
mod declaration;
mod equation;
mod expr;
mod general;
mod group;
mod label;
mod locals;
mod name;
mod numbered;
mod operations;
mod pattern;
mod scheme;
mod shape;
mod solve;
mod statement;
mod step;
mod written;

pub use declaration::add_declaration;
pub use equation::Equation;
pub use expr::add_expression;
pub use general::most_general_types;
pub use locals::Locals;
pub use numbered::Numbered;
pub use operations::operation_scheme;
pub use pattern::{add_pattern, add_row, enter_pattern, enter_row};
pub use scheme::{DataName, Scheme, World};
pub use solve::solve_equations;
pub use written::written_type;
