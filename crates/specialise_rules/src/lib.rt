//! The instances of a typed program: which they are, in which order, the table of their closed data types, and rule E17 on how many
//! there may be.
//!
//! It leaves types and closing to `rw_types_rules` and `rw_types_laws`. It has definitions, and no code that runs. The flat program is
//! said over it. Begin with `specs/Instances.antt`.
#![tactic(auto)]
