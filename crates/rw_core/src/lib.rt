//! The languages between the typed program and the VHDL design, and what their terms mean: closed data types,
//! their values, and the bits that stand for a value; systems of devices and traces, whatever the language of the devices.
//!
//! It leaves all computing to the crates above: `bit_layout` finds widths and encodings.
//! Each stage of the middle takes and gives types of this crate.
//! Begin with `specs/Bits.antt`, which says how a value becomes bits, and `specs/Systems.antt`.
#![tactic(auto)]

mod laws;
mod types;
mod value;

pub use laws::{one_more_output, systems_follow, traces_count};
pub use types::{DataTy, TyTable};
pub use value::Value;
