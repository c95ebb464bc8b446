//! How many frames stand inside one another in a tree: arrows, lambdas, `let` and `if`, which end where their last part
//! ends, with no closing token.
//!
//! It meets the definitions of `rw_parser_reading/specs/Frames.antt`. A count stands still at a bound that the caller gives, so
//! that it never leaves a machine word. Readers stand on it, which keep a tree only where there is room for its frames.
//! Begin with `expr.rt`.
#![tactic(auto)]

mod bounded;
mod clause;
mod expr;
mod types;

pub use clause::{locals_frames, row_frames};
pub use expr::expression_frames;
pub use types::type_frames;
