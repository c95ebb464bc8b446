//! The static rules of a design and the spelling of a text, computed on worked designs and texts: what each contract says, the
//! checker has computed from the definitions.
//!
//! It leaves the meaning of a design to `vh_tree_plain`, whose tests compute that. Nothing uses it: it is here for whoever
//! holds the definitions against the standard. Begin with `specs/Designs.antt`, then `accepted.rt` and `refused.rt`;
//! `texts.rt` stands alone.
#![tactic(auto)]

mod accepted;
mod refused;
mod texts;

pub use accepted::{accepted_forms, oscillator_is_static, switch_is_static};
pub use refused::{
    drivers_are_judged, names_are_judged, order_is_judged, ports_are_judged, widths_are_judged,
};
pub use texts::{a_register_is_read, a_text_and_its_design, tokens_of_a_line};
