// A design on its bench: reset, and one cycle for each input.
ghost use Rattle.std.specs.Prelude.{◌≡◌, ◌++◌, ◌+◌, ℕ, List, map, nat_eq, true, length, ◌≤◌, IfOk, OnOk, Ok, Err};
ghost use Rattle.std.specs.List.{list_all};
ghost use Rattle.rw_base.specs.declared.bit.Bit9.TheVariants.{Zero};
ghost use Rattle.vh_tree.specs.Bits.{Bits};
ghost use Rattle.vh_tree.specs.Bench.{Schedule, IsSchedule, start_of, given, clocked, outp_of};
ghost use Rattle.vh_tree.specs.StaticRules.{IsStatic};
ghost use Rattle.vh_tree.specs.declared.design.Design.{Design};
ghost use Rattle.vhdl_cycle.specs.Simulating.{Simulates, state_of, change_of};
ghost use Rattle.rw_trace.specs.Traces.{most_lines, line_of};
ghost use Rattle.vhdl_bench.specs.Showing.{wire_of, inputs_of, IsShown};
ghost use Rattle.vhdl_bench.specs.Steps.{IsClocked, IsAfter};

use crate::BenchFail;
use rw_base::{Bit9, OutOfMemory, Text};
use rw_trace::push_line;
use std::alloc::Global;
use vh_tree::Design;
use vhdl_cycle::{NotSettled, Sim};

// The values of `inp` for a line of a trace, put into a buffer.
fn put_wires(wires: &mut Vec<Bit9>, bits: &[bool]) -> Result<(), OutOfMemory>
    ensures { OnOk result (wires.new.items ≡ map wire_of bits.now) }
{
    wires.clear();
    for bit in bits {
        wires.push(if *bit { Bit9::One } else { Bit9::Zero })?;
    }
    Ok(())
}

// A simulator of a design after the edge of reset.
fn reset(alloc: Global, design: &Design) -> Result<Sim, BenchFail>
    requires { IsStatic design.now }
    ensures { IsClocked design.now 1 (start_of design.now) result }
{
    let mut sim = Sim::new(alloc, design)?;
    match sim.settle() {
        Ok(_) => {}
        Err(NotSettled(change)) => return Err(BenchFail::NotSettled(change)),
    }
    match sim.edge() {
        Ok(()) => Ok(sim),
        Err(NotSettled(change)) => Err(BenchFail::NotSettled(change)),
    }
}

// One input: its cycle, and the line of what is read then.
fn step(sim: &mut Sim, inp: &[Bit9], text: &mut Text) -> Result<(), BenchFail>
    ensures changed { (d : Design) → Simulates d sim.old → length inp.now ≡ d.inp → IsAfter d (change_of sim.old) (given inp.now (state_of d sim.old)) sim.new result }
    ensures printed { (d : Design) → Simulates d sim.old → length inp.now ≡ d.inp → OnOk result (text.new ≡ text.old ++ line_of (outp_of (state_of d sim.new))) }
{
    match sim.cycle(Bit9::Zero, inp) {
        Ok(()) => {}
        Err(NotSettled(change)) => return Err(BenchFail::NotSettled(change)),
    }
    push_line(text, sim.outp())?;
    Ok(())
}

// What a design shows on inputs: a line after reset, and one after each input's edge.
pub fn show(alloc: Global, design: &Design, inputs: &[Vec<bool>]) -> Result<Text, BenchFail>
    requires kept { IsStatic design.now }
    requires widths { list_all (λ bits. nat_eq (length bits.items) design.now.inp) inputs.now ≡ true }
    requires few { length inputs.now ≤ most_lines }
    ensures { IsShown design.now (inputs_of (map (λ bits. bits.items) inputs.now)) result }
{
    let mut sim = match reset(alloc, design) {
        Ok(sim) => sim,
        Err(fail) => return Err(fail),
    };
    let mut text = Text::new(alloc);
    push_line(&mut text, sim.outp())?;
    let mut wires = Vec::new(alloc);
    for bits in inputs {
        put_wires(&mut wires, bits.as_slice())?;
        match step(&mut sim, wires.as_slice(), &mut text) {
            Ok(()) => {}
            Err(fail) => return Err(fail),
        }
    }
    Ok(text)
}
