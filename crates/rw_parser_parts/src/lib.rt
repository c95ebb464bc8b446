//! The expressions of a source, its clauses and its local declarations: the tree that tokens begin with (Haskell 2010
//! Report, chapter 3, sections 4.4.3 and 10.5, in this project's profile).
//!
//! It meets the functions on lists of `rw_parser_reading`, and leaves whole programs and the grouping of operators to the crates above.
//! The readers of items stand on it. Begin with `frame.rt`, the parts that a tree is built of; each of the other files reads one
//! kind of thing over the readers of what stands inside. The grammar rule stands above each function.
#![tactic(auto)]

mod binding;
mod block;
mod frame;
mod joined;
mod left;
mod look;
mod name;
mod signature;

pub use binding::read_binding;
pub use block::read_block;
pub use frame::{Chain, Frame, Head, Step, all_closed, chained, cut_off};
pub use joined::{Group, begun, join, longer};
pub use left::left_side;
pub use look::{
    begins_aexp, begins_bind, begins_binding, begins_infix, begins_last, begins_op,
    begins_operator, begins_signature, span_of,
};
pub use name::op;
pub use signature::read_signature;
