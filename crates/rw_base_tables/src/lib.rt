//! Tables from names to what is known of them, of any type.
//!
//! It leaves what a name is to its callers, who give the bytes of one, and what stands in a table is theirs. Stages that
//! look names up in hash tables use it, and see a table as a function.
//! Begin with `specs/Tables.antt`, then `table.rt`.
#![tactic(auto)]

mod table;

pub use table::Table;
