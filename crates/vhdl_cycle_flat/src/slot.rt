// Where names stand, and a design whose names are places.

use crate::Process;
use crate::delta::raise;
use crate::leaves::{part, put};
use rw_base::Bit9;
use sqlite_items::Items;

/// What a name stands for: its place among the ports and signals, or among the parameters and variables, counted
/// from 0, and where its bits stand, in bits.
#[derive(Clone, Copy)]
pub struct Slot {
    pub number: u32,
    pub from: u32,
    pub len: u32,
}

impl Slot {
    ghost use Rattle.std.specs.Prelude.{◌≡◌};
    ghost use Rattle.vhdl_cycle_flat.specs.Flat.{part_of, written};
    ghost use Rattle.vhdl_cycle_flat.specs.Delta.{raised};

    /// The bits of a port or signal, among those of all.
    pub fn read(self, bits: &[Bit9]) -> &[Bit9]
        ensures { result.now ≡ part_of self.from self.len bits.now }
    {
        part(bits, self.from, self.len)
    }

    /// Gives a port or signal bits for the next cycle, which are pending then.
    pub fn give(self, bits: &[Bit9], next: &mut [Bit9], pending: &mut [bool])
        ensures next { next.new ≡ written self.from bits.now next.old }
        ensures pending { pending.new ≡ raised self.number pending.old }
    {
        put(next, self.from, bits);
        raise(pending, self.number);
    }
}

/// A design whose names are places. Ports and signals stand one after another, in the order `clk`, `rst`, `inp`,
/// `outp`, declared signals.
#[derive(Drop)]
pub struct Resolved {
    /// The processes, in the order of the text.
    pub processes: Items<Process>,
    /// How many ports and signals there are.
    pub wires: u32,
    /// How many bits they have together.
    pub bits: u32,
    /// How many bits the frames of all functions have together.
    pub store: u32,
    /// How many bits of scratch the processes need at most.
    pub room: u32,
}
