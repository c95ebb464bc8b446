// Why a call of this crate gives no answer.

use rw_base::Failure;

/// There is no solution within the bounds.
#[derive(Clone, Copy, Debug, PartialEq, Eq)]
pub struct NoSolution;

/// Why a call of this crate gives no answer: there is no solution within the bounds, or memory ran out.
pub type Unsolved = Failure<NoSolution>;
