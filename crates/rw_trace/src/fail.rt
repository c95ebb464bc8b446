// Why a trace gives no bits.
ghost use Rattle.std.specs.Prelude.{◌≡◌};

use rw_base::OutOfMemory as WantOfMemory;
use std::alloc::{AllocError, AllocFailed};

/// Why a trace gives no bits.
#[derive(Clone, Copy, Debug, PartialEq, Eq)]
pub enum TraceFail {
    /// The line of this number, counted from 1, is the first that is refused.
    BadLine(u32),
    /// Memory ran out.
    OutOfMemory,
}

impl From<AllocError> for TraceFail {
    ghost use Rattle.rw_trace.specs.declared.fail.TraceFail.TheVariants.{OutOfMemory};

    ghost from_gives = { λ _ e. e ≡ OutOfMemory };

    fn from(_error: AllocError) -> TraceFail {
        TraceFail::OutOfMemory
    }
}

impl<T: Drop> From<AllocFailed<T>> for TraceFail {
    ghost use Rattle.rw_trace.specs.declared.fail.TraceFail.TheVariants.{OutOfMemory};

    ghost from_gives = { λ _ e. e ≡ OutOfMemory };

    fn from(_error: AllocFailed<T>) -> TraceFail {
        TraceFail::OutOfMemory
    }
}

impl From<WantOfMemory> for TraceFail {
    ghost use Rattle.rw_trace.specs.declared.fail.TraceFail.TheVariants.{OutOfMemory};

    ghost from_gives = { λ _ e. e ≡ OutOfMemory };

    fn from(_error: WantOfMemory) -> TraceFail {
        TraceFail::OutOfMemory
    }
}
