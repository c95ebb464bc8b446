//! The laws of instances: what a search that lists them one after the other may rest on.
//!
//! It leaves what an instance is to `specialise_rules`, and has no code that runs. The search for instances uses it.
//! Begin with `specs/Looking.antt` and `laws.rt`.
#![tactic(auto)]

mod laws;

pub use laws::{
    all_listed_law, first_too_much_law, fronts_law, left_law, one_table_law, same_law, table_law,
};
