//! Layout: `lay_out` inserts the braces and semicolons that lines and columns stand for, or gives the token at which
//! blocks and brackets don't match (Haskell 2010 Report, section 10.3, in this project's profile).
//!
//! It leaves the grammar to the crate above, which sees braces and semicolons alone, written or inserted; `rw_lex` gives
//! it tokens with their places. Begin with `specs/Layout.antt`, which has the rule in seven parts, and `laws.rt`, which
//! says what every layout keeps; then `layout.rt` with the public call, `step.rt` with one token, and `stack.rt`.
#![tactic(auto)]

mod entry;
mod laws;
mod layout;
mod role;
mod stack;
mod step;

pub use entry::{Entry, Opener};
pub use laws::{explicit_stays, layout_is_balanced, layout_keeps_tokens, refused_by_e04};
pub use layout::lay_out;
pub use role::{Before, Role};
