// What a design holds while it runs: the definitions of its meaning speak of these.

use crate::Ident;
use rw_base::Bit9;
use sqlite_items::Items;

/// A name with its value: a variable or a parameter of a function, or a port or a signal seen in one moment.
#[derive(Drop)]
pub struct Held {
    pub name: Ident,
    pub value: Items<Bit9>,
}

/// A port or a signal: its current value, and perhaps a pending one (IEEE Std 1076-1993, section 12.6.1, where a
/// driver with at most one further transaction, of no delay, is all that the subset needs).
#[derive(Drop)]
pub struct Wire {
    pub name: Ident,
    pub value: Items<Bit9>,
    pub pending: Option<Items<Bit9>>,
}

/// A state of a simulation, between two delta cycles: the ports and the signals, and whether the start cycle is
/// still to come.
#[derive(Drop)]
pub struct State {
    pub wires: Items<Wire>,
    pub starting: bool,
}

/// What the processes of one delta cycle see: whether it is the start cycle, and the values of the ports and the
/// signals before it and in it.
#[derive(Drop)]
pub struct Moment {
    pub starting: bool,
    pub before: Items<Held>,
    pub current: Items<Held>,
}

/// A quiet state, and the count of the delta cycles that led to it.
#[derive(Drop)]
pub struct Settled {
    pub state: State,
    pub count: u32,
}
