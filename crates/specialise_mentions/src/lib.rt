//! What a declaration names: its declared names from left to right, each with the numbers of its arguments; and the numbers of its
//! nodes. So a declaration is walked once, whatever instances there are of it.
//!
//! It leaves what instances are to `specialise_rules`, and which of them there are to the search for instances, which uses it. Begin
//! with `mention.rt` and `listing.rt`, then `specs/Named.antt`; `numbers.rt` has the numbers of nodes.
#![tactic(auto)]

mod listing;
mod mention;
mod numbers;

pub use listing::mentions;
pub use mention::Mention;
pub use numbers::typed_numbers;
