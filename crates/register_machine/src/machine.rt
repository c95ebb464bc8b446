// Moore machines as tables of numbers.

use sqlite_items::Items;

/// A machine: what it shows is told by its state alone, and each input leads to a next state.
///
/// A machine is well formed (`IsMachine`) where it has inputs, outputs and states, fewer than 2^32 of each, and all
/// numbers in its tables name one.
#[derive(Drop)]
pub struct Machine {
    /// How many inputs there are. An input is a number below it.
    pub inputs: usize,
    /// How many outputs there are. An output is a number below it.
    pub outputs: usize,
    /// The number of the first state, which a reset leads to.
    pub reset: usize,
    /// The states, numbered from 0.
    pub states: Items<State>,
}

/// A state of a machine.
#[derive(Drop)]
pub struct State {
    /// The number of the output that is shown in this state.
    pub shown: usize,
    /// For each input, the number of the next state.
    pub next: Items<usize>,
}
