// Why a simulation prints nothing.
ghost use Rattle.std.specs.Prelude.{◌≡◌};

use rw_base::{OutOfMemory as WantOfMemory, VRule};

/// Why a simulation prints nothing.
#[derive(Clone, Copy, Debug, PartialEq, Eq)]
pub enum BenchFail {
    /// The text breaks this rule of the VHDL subset, and none before it.
    VhdlRefused(VRule),
    /// The line of the trace with this number, from 1, is the first that is refused.
    TraceRefused(u32),
    /// The change with this number, from 1, is the first that isn't quiet after 64 delta cycles.
    NotSettled(u32),
    /// Memory ran out.
    OutOfMemory,
}

impl From<WantOfMemory> for BenchFail {
    ghost use Rattle.vhdl_bench.specs.declared.fail.BenchFail.TheVariants.{OutOfMemory};

    ghost from_gives = { λ _ e. e ≡ OutOfMemory };

    fn from(_error: WantOfMemory) -> BenchFail {
        BenchFail::OutOfMemory
    }
}
