// A store and a sink in memory. They tell their content, and fail at the calls of a given list.
ghost use Rattle.std.specs.Prelude.{◌≡◌, ◌↔◌, IsTrue, Contains};
ghost use Rattle.rw_base.specs.Outside.{next_count};

mod sink;
mod store;

pub use sink::MemorySink;
pub use store::MemoryStore;

// Whether the call with this number fails.
fn is_listed(failing: &[u32], call: u64) -> bool
    ensures { IsTrue result ↔ Contains failing.now call }
{
    failing.iter().any(|number| u64::from(*number) == call)
}

// One more, or the last value.
fn next(count: u64) -> u64
    ensures { result ≡ next_count count }
{
    count.saturating_add(1)
}
