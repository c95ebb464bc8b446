// Why a plain function gives no answer.
use rw_base::OutOfMemory;
use std::alloc::{AllocError, AllocFailed};

/// The calls went deeper than was allowed, or memory ran out.
#[derive(Clone, Copy, Debug, PartialEq, Eq)]
pub enum PlainFail {
    TooDeep,
    OutOfMemory,
}

impl From<OutOfMemory> for PlainFail {
    fn from(_error: OutOfMemory) -> PlainFail {
        PlainFail::OutOfMemory
    }
}

impl From<AllocError> for PlainFail {
    fn from(_error: AllocError) -> PlainFail {
        PlainFail::OutOfMemory
    }
}

impl<T: Drop> From<AllocFailed<T>> for PlainFail {
    fn from(_error: AllocFailed<T>) -> PlainFail {
        PlainFail::OutOfMemory
    }
}
