//! Reads texts of the VHDL subset: from the bytes of a text to the one design that it spells, or to the first of the
//! rules V1 to V8 that it breaks.
//!
//! It leaves the definitions to `vh_tree`, the laws of reading to `vh_tree_reading`, those of the canonical text to
//! `vh_tree_spelling`, and judging the static rules V4 to V8 to `vh_tree_static`.
//! Whoever simulates or checks a text from outside begins here. Begin with `judged.rt`, then `spelled.rt` and `scan.rt`;
//! the grammar rule stands above each reader.
#![tactic(auto)]

mod class;
mod declare;
mod design;
mod expr;
mod item;
mod judged;
mod process;
mod scan;
mod spelled;
mod stmt;
mod token;
mod word;

pub use judged::read;
pub use rw_base::VFail;
pub use scan::tokens_of;
pub use spelled::read_spelled;
