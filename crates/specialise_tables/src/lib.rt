//! The table of closed data types: each once, behind the types of its fields, in order of first sight, and at most 65,536.
//!
//! It leaves types by numbers to `specialise_types`, and which types the nodes of an instance have to the search for instances,
//! which uses it. What is still to be done stands in a list, so that no call stands inside another however deep types are. Begin
//! with `table.rt` and `see.rt`; the words are in `specialise_rules`.
#![tactic(auto)]

mod fields;
mod laws;
mod marks;
mod open;
mod see;
mod stack;
mod table;

pub use fields::Constructors;
pub use laws::same_fields_law;
pub use marks::Marks;
pub use see::{Stop, TooMany, see_all};
pub use table::Table;
