// The simulator: its buffers, and one call for each kind of change.
ghost use Rattle.std.specs.Prelude.{◌≡◌, ◌≤◌, [], length, vec_capacity};
ghost use Rattle.vh_tree.specs.Bits.{Bits};
ghost use Rattle.vhdl_cycle_flat.specs.Delta.{room_ran};

use crate::NotSettled;
use crate::filled::filled;
use rw_base::{Bit9, OutOfMemory};
use std::alloc::Global;
use vh_tree::Design;
use vh_tree_laws::{order_law, settling_law};
use vhdl_cycle_flat::{Resolved, Slot, settle};
use vhdl_cycle_laws::{cycles_law, port_law};
use vhdl_cycle_resolve::resolve;

// Where the two ports of one bit stand.
const CLK: Slot = Slot {
    number: 0,
    from: 0,
    len: 1,
};

const RST: Slot = Slot {
    number: 1,
    from: 1,
    len: 1,
};

/// A simulator of one design. It takes no memory once it is made: each buffer keeps the room that it has.
#[derive(Drop)]
pub struct Sim {
    resolved: Resolved,
    inp: Slot,
    outp: Slot,
    current: Vec<Bit9>,
    before: Vec<Bit9>,
    next: Vec<Bit9>,
    pending: Vec<bool>,
    starting: bool,
    store: Vec<Bit9>,
    scratch: Vec<Bit9>,
    change: u32,
    ghost before_fits: { length before.items ≡ length current.items },
    ghost next_fits: { length next.items ≡ length current.items },
    ghost stored: { length store.items ≡ resolved.store },
    ghost empty: { scratch.items ≡ [] },
    ghost room: { (frame : Bits) → room_ran resolved.processes (length store.items) frame ≤ vec_capacity scratch },
}

impl Sim {
    ghost use Rattle.std.specs.Prelude.{ℕ, ◌+◌, ◌∷◌, min, IfOk, IsOk, replicate};
    ghost use Rattle.vh_tree.specs.DeltaCycle.{Orders, AreOrders};
    ghost use Rattle.vh_tree.specs.Bench.{Schedule, IsSchedule, text_schedule, settled, start_of, clocked, or_change, edge as rising, outp_of};
    ghost use Rattle.vh_tree.specs.StaticRules.{IsStatic};
    ghost use Rattle.vh_tree.specs.declared.design.Design.{Design};
    ghost use Rattle.vhdl_cycle.specs.Simulating.{Simulates, state_of, change_of, most_cycles, last_change, given_with, IsSettled, IsFirstQuietNow, IsChanged, IsSameRoom};

    /// A simulator at the start of the bench, with `clk` '0', `rst` '1' and `inp` all '0' pending, which is change 1 and
    /// isn't settled. The static rules hold of the design.
    pub fn new(alloc: Global, design: &Design) -> Result<Sim, OutOfMemory>
        requires { IsStatic design.now }
        ensures runs { IfOk result (Simulates design.now) }
        ensures starts { IfOk result (λ sim. state_of design.now sim ≡ start_of design.now) }
        ensures first { IfOk result (λ sim. change_of sim ≡ 1) }
    {
        port_law();
        let mut sim = Sim::fresh(alloc, design)?;
        let zeros = filled(alloc, Bit9::Zero, design.inp as usize)?;
        let inp = sim.inp;
        sim.give(inp, zeros.as_slice());
        sim.give(RST, &[Bit9::One]);
        sim.give(CLK, &[Bit9::Zero]);
        Ok(sim)
    }

    /// Runs delta cycles until nothing is pending, at most 64, and answers how many. It is refused, with the number of
    /// the last change, exactly where the design isn't quiet after any number of them up to 64 (IEEE Std 1076-1993,
    /// section 12.6.4, without time).
    pub fn settle(&mut self) -> Result<u32, NotSettled>
        ensures runs { (d : Design) → Simulates d self.old → Simulates d self.new }
        ensures value { (d : Design) → Simulates d self.old →
            IsSettled (settled d (text_schedule d (change_of self.old)) most_cycles (state_of d self.old)) (change_of self.old) (state_of d self.new) result }
        ensures every_order { (d : Design) → Simulates d self.old → (orders : Orders) → AreOrders d orders →
            IsSettled (settled d orders most_cycles (state_of d self.old)) (change_of self.old) (state_of d self.new) result }
        ensures first_quiet { (d : Design) → Simulates d self.old → (orders : Orders) → AreOrders d orders →
            IsFirstQuietNow d orders (state_of d self.old) (state_of d self.new) result }
        ensures change { change_of self.new ≡ change_of self.old }
        ensures room { IsSameRoom self.old self.new }
    {
        cycles_law();
        order_law();
        settling_law();
        match self.settle_buffers() {
            Some(count) => Ok(count),
            None => Err(NotSettled(self.change)),
        }
    }

    /// One change more: `clk` '1'. It is refused, with the number of this change, exactly where that isn't quiet after
    /// 64 delta cycles.
    pub fn edge(&mut self) -> Result<(), NotSettled>
        ensures runs { (d : Design) → Simulates d self.old → Simulates d self.new }
        ensures value { (d : Design) → Simulates d self.old →
            IsChanged (or_change (change_of self.old + 1) (settled d (text_schedule d (change_of self.old + 1)) most_cycles (rising (state_of d self.old)))) (state_of d self.new) result }
        ensures every_order { (d : Design) → Simulates d self.old → (schedule : Schedule) → IsSchedule d schedule →
            IsChanged (or_change (change_of self.old + 1) (settled d (schedule (change_of self.old + 1)) most_cycles (rising (state_of d self.old)))) (state_of d self.new) result }
        ensures change { change_of self.new ≡ min (change_of self.old + 1) last_change }
        ensures room { IsSameRoom self.old self.new }
    {
        order_law();
        port_law();
        self.count();
        self.give(CLK, &[Bit9::One]);
        self.finish()
    }

    /// Two changes more: `rst`, `clk` '0' and `inp`, the leftmost bit first, and then `clk` '1'. It is refused, with the
    /// number of the first of them that isn't quiet after 64 delta cycles, exactly where there is one.
    pub fn cycle(&mut self, rst: Bit9, inp: &[Bit9]) -> Result<(), NotSettled>
        ensures runs { (d : Design) → Simulates d self.old → length inp.now ≡ d.inp → Simulates d self.new }
        ensures value { (d : Design) → Simulates d self.old → length inp.now ≡ d.inp →
            IsChanged (clocked most_cycles d (text_schedule d) (change_of self.old + 1) (given_with rst inp.now (state_of d self.old))) (state_of d self.new) result }
        ensures every_order { (d : Design) → Simulates d self.old → length inp.now ≡ d.inp → (schedule : Schedule) → IsSchedule d schedule →
            IsChanged (clocked most_cycles d schedule (change_of self.old + 1) (given_with rst inp.now (state_of d self.old))) (state_of d self.new) result }
        ensures change { IsOk result → change_of self.new ≡ min (change_of self.old + 2) last_change }
        ensures room { IsSameRoom self.old self.new }
    {
        order_law();
        port_law();
        self.count();
        let at = self.inp;
        self.give(at, inp);
        self.give(CLK, &[Bit9::Zero]);
        self.give(RST, &[rst]);
        self.finish()?;
        self.edge()
    }

    /// The bits of `outp` now, the leftmost first.
    pub fn outp(&self) -> &[Bit9]
        ensures { (d : Design) → Simulates d self.now → result.now ≡ outp_of (state_of d self.now) }
    {
        port_law();
        self.outp.read(self.current.as_slice())
    }
}

// What the calls are made of.
impl Sim {
    ghost use Rattle.std.specs.Prelude.{ℕ, ◌+◌, min, true, IfOk};
    ghost use Rattle.vh_tree.specs.Bits.{Bytes};
    ghost use Rattle.vh_tree.specs.DeltaCycle.{Orders, AreOrders};
    ghost use Rattle.vh_tree.specs.Bench.{settled, or_change, set_port, wires_of};
    ghost use Rattle.vh_tree.specs.StaticRules.{IsStatic};
    ghost use Rattle.vh_tree.specs.declared.design.Design.{Design};
    ghost use Rattle.vhdl_cycle_flat.specs.Cycles.{IsSettling, Reaches};
    ghost use Rattle.vhdl_cycle_laws.specs.Changes.{given_at};
    ghost use Rattle.vhdl_cycle.specs.Simulating.{flat_of, StandsAt, Simulates, state_of, change_of, most_cycles, last_change, IsChanged, IsSameRoom};
    ghost use Rattle.vhdl_cycle.specs.Buffers.{fresh_flat, IsSameMachine};

    // A simulator before the start: all is 'U', and nothing is pending.
    fn fresh(alloc: Global, design: &Design) -> Result<Sim, OutOfMemory>
        requires { IsStatic design.now }
        ensures runs { IfOk result (Simulates design.now) }
        ensures stands { IfOk result (λ sim. state_of design.now sim ≡ record { wires = wires_of design.now; starting = true }) }
        ensures change { IfOk result (λ sim. change_of sim ≡ 1) }
    {
        port_law();
        let resolved = resolve(alloc, design)?;
        let inp = Slot {
            number: 2,
            from: 2,
            len: design.inp,
        };
        let outp = Slot {
            number: 3,
            from: 2 + design.inp,
            len: design.outp,
        };
        Sim::over(alloc, resolved, inp, outp)
    }

    // A simulator over buffers that are all 'U', of a design with places and the places of its ports.
    fn over(alloc: Global, resolved: Resolved, inp: Slot, outp: Slot) -> Result<Sim, OutOfMemory>
        requires { (frame : Bits) → room_ran resolved.processes resolved.store frame ≤ resolved.room }
        ensures flat { IfOk result (λ sim. flat_of sim ≡ fresh_flat resolved.bits resolved.wires) }
        ensures same { IfOk result (λ sim. (sim.resolved ≡ resolved) × (sim.inp ≡ inp) × (sim.outp ≡ outp)) }
        ensures change { IfOk result (λ sim. change_of sim ≡ 1) }
    {
        let bits = resolved.bits as usize;
        let current = filled(alloc, Bit9::U, bits)?;
        let before = filled(alloc, Bit9::U, bits)?;
        let next = filled(alloc, Bit9::U, bits)?;
        let pending = filled(alloc, false, resolved.wires as usize)?;
        let store = filled(alloc, Bit9::U, resolved.store as usize)?;
        let scratch = Vec::with_capacity(alloc, resolved.room as usize)?;
        Ok(Sim {
            resolved,
            inp,
            outp,
            current,
            before,
            next,
            pending,
            starting: true,
            store,
            scratch,
            change: 1,
        })
    }

    // Gives a port bits for the next cycle.
    fn give(&mut self, at: Slot, bits: &[Bit9])
        ensures runs { (d : Design) → Simulates d self.old → (x : Bytes) → StandsAt d x at → length bits.now ≡ at.len → Simulates d self.new }
        ensures given { (d : Design) → Simulates d self.old → (x : Bytes) → StandsAt d x at → length bits.now ≡ at.len →
            state_of d self.new ≡ set_port x bits.now (state_of d self.old) }
        ensures change { change_of self.new ≡ change_of self.old }
        ensures room { IsSameRoom self.old self.new }
        ensures inp { self.new.inp ≡ self.old.inp }
    {
        port_law();
        self.give_buffers(at, bits);
    }

    // The same over the buffers.
    fn give_buffers(&mut self, at: Slot, bits: &[Bit9])
        ensures flat { flat_of self.new ≡ given_at at bits.now (flat_of self.old) }
        ensures same { IsSameMachine self.old self.new }
        ensures change { change_of self.new ≡ change_of self.old }
        ensures room { IsSameRoom self.old self.new }
    {
        at.give(bits, self.next.as_mut_slice(), self.pending.as_mut_slice());
    }

    // Settles the change whose values are pending.
    fn finish(&mut self) -> Result<(), NotSettled>
        ensures runs { (d : Design) → Simulates d self.old → Simulates d self.new }
        ensures every_order { (d : Design) → Simulates d self.old → (orders : Orders) → AreOrders d orders → (number : ℕ) → change_of self.old ≡ min number last_change →
            IsChanged (or_change number (settled d orders most_cycles (state_of d self.old))) (state_of d self.new) result }
        ensures change { change_of self.new ≡ change_of self.old }
        ensures room { IsSameRoom self.old self.new }
    {
        self.settle()?;
        Ok(())
    }

    // Counts one change more.
    #[tactic(auto, unfolding(crate::specs::Simulating::last_change))]
    fn count(&mut self)
        ensures runs { (d : Design) → Simulates d self.old → Simulates d self.new }
        ensures state { (d : Design) → state_of d self.new ≡ state_of d self.old }
        ensures change { change_of self.new ≡ min (change_of self.old + 1) last_change }
        ensures room { IsSameRoom self.old self.new }
        ensures inp { self.new.inp ≡ self.old.inp }
    {
        self.change = self.change.saturating_add(1);
    }

    // Settling over the buffers.
    fn settle_buffers(&mut self) -> Option<u32>
        ensures value { IsSettling self.old.resolved.processes self.old.resolved.store 64 (flat_of self.old) (flat_of self.new) result }
        ensures reaches { Reaches self.old.resolved.processes self.old.resolved.store (flat_of self.old) (flat_of self.new) }
        ensures same { IsSameMachine self.old self.new }
        ensures change { change_of self.new ≡ change_of self.old }
        ensures room { IsSameRoom self.old self.new }
    {
        settle(
            self.resolved.processes.as_slice(),
            &mut self.starting,
            self.current.as_mut_slice(),
            self.before.as_mut_slice(),
            self.next.as_mut_slice(),
            self.pending.as_mut_slice(),
            self.store.as_mut_slice(),
            &mut self.scratch,
        )
    }
}
