//! Which flat program a source has: the rules by which an expression, in an environment and applied to arguments, flattens to a term of
//! first order.
//!
//! It leaves what flat programs mean to `rw_core_flat`, and that they mean what their source means to `inline_ho_laws`. It has
//! definitions, and no code that runs. Begin with `specs/Flattening.antt`, then `specs/FlatPrograms.antt`.
#![tactic(auto)]
