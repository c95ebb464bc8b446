//! The laws of the canonical text: it spells its design wherever any text can, and which designs those are.
//!
//! It leaves the definitions to `vh_tree`, how a text is read to `vh_tree_reading`, and the code that prints to
//! `vhdl_print`. No call here does anything. The printer, the reader and the law of the compiler cite it.
//! Begin with `spelling_laws.rt`.
#![tactic(auto)]

mod spelling_laws;

pub use spelling_laws::{
    canonical_text_spells, spellable_designs_are_spelled, spelled_designs_are_spellable,
    tokens_of_expressions, tokens_of_statements,
};
