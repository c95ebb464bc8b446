//! Readers of the items of a program: its header and imports, data types, fixities and signatures, and the runs of
//! tokens that items are (Haskell 2010 Report, chapters 4 and 5, in this project's profile).
//!
//! Types and patterns are read by `rw_parser_patterns`, clauses by `rw_parser_parts`. The parser stands on it. Begin with
//! `item.rt`. The grammar rule stands above each function, and `specs/` of `rw_parser_reading` has the functions on lists
//! that the readers are held against.
#![tactic(auto)]

mod data;
mod fixity;
mod import;
mod list;
mod module;
mod signature;

pub use data::{data_type, newtype};
pub use fixity::fixity_declaration;
pub use import::import_declaration;
pub use module::header;
pub use signature::type_signature;
