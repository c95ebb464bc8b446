//! How many bits a type takes, and how a value becomes bits and comes back from them.
//!
//! It leaves what the bits mean to the definitions of `rw_core`: a tag, the fields in order, zeros on the right.
//! The traces and the emitted designs are written in these bits.
//! Begin with `widths.rt`, then `encoding.rt` and `decoding.rt`; `laws.rt` says what holds of all encodings.
#![tactic(auto)]

mod decoding;
mod encoding;
mod laws;
mod shape;
mod table;
mod widths;

pub use decoding::decode;
pub use encoding::encode;
pub use laws::{encoding_has_width, encoding_tells_value, width_is_of_fields};
pub use table::is_table;
pub use widths::{tag_bits, width};
