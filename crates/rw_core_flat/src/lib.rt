//! The flat program as a language: first-order terms whose variables are numbers, functions with their types, and what they give:
//! the value of a pure term, what a state action does, the trace of a device, and the outputs of a system.
//!
//! It leaves which flat program a source has to the stages above, and which terms are well typed too. It has types, definitions and
//! laws, and no code that runs. Each stage from the typed tree to the guarded program takes or gives a flat program.
//! Begin with `term.rt` and `specs/Terms.antt`, then `specs/Meaning.antt` and `specs/Programs.antt`.
#![tactic(auto)]

mod function;
mod laws;
mod pattern;
mod program;
mod term;

pub use function::{FlatFun, FunKind};
pub use laws::{budgets_grow, one_list_is_shown, values_of_types};
pub use pattern::FPat;
pub use program::{Flat, System};
pub use term::{FArm, FArms, FLet, FRow, FTerm};
