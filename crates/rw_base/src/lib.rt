//! What every stage of the compiler shares: places in a source, names, the rules that a source or a text can
//! break, the nine values of a wire, printed texts, and what the program reads from and writes to.
//!
//! It leaves every language to the crates above: no token, tree or design is known here.
//! Each stage refuses by a `Refusal`, and each command loads, saves and puts through `Store` and `Sink`.
//! Begin with `store.rt`, whose two traits say what a store and a sink promise, then with `rule.rt`.
#![tactic(auto)]

mod bit;
mod edge;
mod fail;
mod memory;
mod name;
mod place;
mod rule;
mod store;
mod text;

pub use bit::Bit9;
pub use edge::{FileStore, StreamSink};
pub use fail::{Fail, Failure, NotSpelled, OutOfMemory, Refusal, Unread, VFail};
pub use memory::{MemorySink, MemoryStore};
pub use name::Name;
pub use place::{Place, Span, place_of};
pub use rule::{Rule, VRule};
pub use store::{DeviceError, Sink, Store};
pub use text::Text;
