// Why a call gives no answer: something is refused, or memory ran out.
ghost use Rattle.rw_base.specs.declared.fail.Failure.TheVariants.{OutOfMemory as WantOfMemory};
ghost use Rattle.std.specs.Prelude.{◌≡◌};

use crate::{Place, Rule, VRule};
use std::alloc::{AllocError, AllocFailed};

/// Memory ran out.
#[derive(Clone, Copy, Debug, PartialEq, Eq)]
pub struct OutOfMemory;

/// The rule that a source breaks, and where.
#[derive(Clone, Copy, Debug, PartialEq, Eq)]
pub struct Refusal {
    pub rule: Rule,
    pub place: Place,
}

/// Nothing is spelled so.
#[derive(Clone, Copy, Debug, PartialEq, Eq)]
pub struct NotSpelled;

/// Why a call gives no answer: it refuses, for this reason, or memory ran out.
#[derive(Clone, Copy, Debug, PartialEq, Eq)]
pub enum Failure<R> {
    Refused(R),
    OutOfMemory,
}

/// Why a call of the front gives no answer: the source breaks a rule at a place, or memory ran out.
pub type Fail = Failure<Refusal>;

/// Why a design or a text isn't taken: it breaks this rule, and none before it, or memory ran out.
pub type VFail = Failure<VRule>;

/// Why a reader gives nothing: nothing is spelled so, or memory ran out.
pub type Unread = Failure<NotSpelled>;

impl From<AllocError> for OutOfMemory {
    ghost from_gives = { λ _ e. e ≡ record {} };

    fn from(_error: AllocError) -> OutOfMemory {
        OutOfMemory
    }
}

impl<T: Drop> From<AllocFailed<T>> for OutOfMemory {
    ghost from_gives = { λ _ e. e ≡ record {} };

    fn from(_error: AllocFailed<T>) -> OutOfMemory {
        OutOfMemory
    }
}

impl From<Refusal> for Failure<Refusal> {
    ghost use Rattle.rw_base.specs.declared.fail.Failure.TheVariants.{Refused};

    ghost from_gives = { λ refusal e. e ≡ Refused refusal };

    fn from(refusal: Refusal) -> Failure<Refusal> {
        Failure::Refused(refusal)
    }
}

impl<R> From<OutOfMemory> for Failure<R> {
    ghost from_gives = { λ _ e. e ≡ WantOfMemory };

    fn from(_error: OutOfMemory) -> Failure<R> {
        Failure::OutOfMemory
    }
}

impl<R> From<AllocError> for Failure<R> {
    ghost from_gives = { λ _ e. e ≡ WantOfMemory };

    fn from(_error: AllocError) -> Failure<R> {
        Failure::OutOfMemory
    }
}

impl<R, T: Drop> From<AllocFailed<T>> for Failure<R> {
    ghost from_gives = { λ _ e. e ≡ WantOfMemory };

    fn from(_error: AllocFailed<T>) -> Failure<R> {
        Failure::OutOfMemory
    }
}
