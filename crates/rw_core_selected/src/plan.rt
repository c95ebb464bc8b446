// Plans.

use crate::{SFun, Selected};
use sqlite_items::Items;

/// How the leaves of a system are put together. `shown` gives the output of the whole from the outputs of all leaves, in order;
/// `inputs` gives for each leaf its input from these and, behind them, the outer input.
#[derive(Drop)]
pub struct Wiring {
    pub shown: SFun,
    pub inputs: Items<SFun>,
}

/// A selected program with its wiring.
#[derive(Drop)]
pub struct Plan {
    pub machine: Selected,
    pub wiring: Wiring,
}
