//! The definitions of the source's side computed on small programs: what each contract says of one program, the prover has
//! computed. Scoping, typing, `start` and systems, and the meaning of devices.
//!
//! It leaves the definitions to `rw_scope_rules`, `rw_types_rules`, `rw_start` and `rw_meaning`. Nothing uses it: it is here for
//! whoever holds them against the Haskell 2010 Report and `docs/LANGUAGE.md`. Begin with the programs in `specs/`.
#![tactic(auto)]

mod accepted;
mod devices;
mod refused;
mod start;
mod systems;
mod typed;

pub use accepted::{local_names_are_numbered, shadowing_is_allowed};
pub use devices::{
    a_guard_falls_through, a_switch, two_registers_in_a_row, two_states_are_exchanged,
    what_returns_keeps_its_last_output,
};
pub use refused::{
    bindings_are_looked_up, cycles_are_found, data_types_are_judged, imports_are_judged,
    kinds_are_judged, pairs_are_judged, repetitions_are_found,
};
pub use start::{start_has_a_type, start_is_a_device, start_is_one_equation, start_is_there};
pub use systems::{
    names_of_start_are_judged, operations_stand_in_place, sixty_four_devices_are_enough,
    systems_are_taken_apart,
};
pub use typed::{
    a_case_turns_a_bit, a_device_that_shows_the_wrong_type_is_untypable, the_identity_is_typed,
};
