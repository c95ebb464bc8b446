//! How a text is read from left to right, as functions on lists, and the laws that tie this to what a text spells.
//!
//! It leaves the definitions to `vh_tree`, the canonical text to `vh_tree_spelling`, and the code that reads to
//! `vhdl_read`, whose contracts stand on these laws. Nobody needs to believe `Scan`, `Read` or `ReadDesign`, and no call
//! here does anything.
//! Begin with `reading_laws.rt`, then `specs/Scan.antt`.
#![tactic(auto)]

mod reading_laws;

pub use reading_laws::{
    designs_are_read, every_text_is_judged, first_broken_law, one_design_for_a_text,
    tokens_are_scanned,
};
