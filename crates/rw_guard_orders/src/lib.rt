//! What the rules on recursion give: ranks, one set of must-signal functions, one weight and one depth for each function, and that
//! a typed function that isn't a device calls none.
//!
//! It leaves finding all that to code above it, and totality too. It has laws, and no code that runs.
//! Begin with `laws.rt`, then `specs/Orders.antt`.
#![tactic(auto)]

mod laws;

pub use laws::{one_must_signal, one_weighing, rules_give_ranks, typed_calls};
