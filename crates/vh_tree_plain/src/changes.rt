// The bench: its changes and its readings.
ghost use Rattle.std.specs.Prelude.{◌≡◌, ℕ, ◌+◌, ◌*◌, ◌^◌, ◌<◌, [], ◌∷◌, ◌++◌, OnOk, IfOk, length, replicate};
ghost use Rattle.vh_tree.specs.DeltaCycle.{seen};
ghost use Rattle.vh_tree.specs.Bench.{fresh, signals_of, wires_of, set_port, start_of, edge, given, outp_of, clocked, readings_from, bench_readings, text_schedule};

use crate::PlainFail;
use crate::bits::unset;
use crate::delta::{seen_of, settle};
use crate::process::{set_pending, value_at};
use rw_base::Bit9;
use sqlite_items::Items;
use std::alloc::Global;
use vh_tree::{Design, Ident, Item, State, Wire};

fn fresh_wire(alloc: Global, name: &[u8], width: u32) -> Result<Wire, PlainFail>
    ensures { IfOk result (λ w. w ≡ fresh name.now width) }
{
    let name = Ident::from_slice(alloc, name)?;
    let value = unset(alloc, width)?;
    Ok(Wire {
        name,
        value,
        pending: None,
    })
}

fn add_signals(alloc: Global, wires: &mut Vec<Wire>, items: &[Item]) -> Result<(), PlainFail>
    ensures { OnOk result (wires.new.items ≡ wires.old.items ++ signals_of items.now) }
{
    for item in items {
        match item {
            Item::Signal(signal) => wires.push(fresh_wire(
                alloc,
                signal.name.as_slice(),
                signal.width,
            )?)?,
            Item::Function(_) => (),
        }
    }
    Ok(())
}

fn all_wires(alloc: Global, design: &Design) -> Result<Vec<Wire>, PlainFail>
    ensures { IfOk result (λ ws. ws.items ≡ wires_of design.now) }
{
    let mut wires = Vec::new(alloc);
    wires.push(fresh_wire(alloc, b"clk", 1)?)?;
    wires.push(fresh_wire(alloc, b"rst", 1)?)?;
    wires.push(fresh_wire(alloc, b"inp", design.inp)?)?;
    wires.push(fresh_wire(alloc, b"outp", design.outp)?)?;
    add_signals(alloc, &mut wires, design.items.as_slice())?;
    Ok(wires)
}

fn copied(alloc: Global, wire: &Wire) -> Result<Wire, PlainFail>
    ensures { IfOk result (λ w. w ≡ wire.now) }
{
    let name = wire.name.copied(alloc)?;
    let value = Items::from_slice(alloc, wire.value.as_slice())?;
    let pending = match &wire.pending {
        Some(value) => Some(Items::from_slice(alloc, value.as_slice())?),
        None => None,
    };
    Ok(Wire {
        name,
        value,
        pending,
    })
}

fn copied_all(alloc: Global, wires: &[Wire]) -> Result<Vec<Wire>, PlainFail>
    ensures { IfOk result (λ ws. ws.items ≡ wires.now) }
{
    let mut all = Vec::new(alloc);
    for wire in wires {
        all.push(copied(alloc, wire)?)?;
    }
    Ok(all)
}

fn with_port(
    alloc: Global,
    state: &State,
    name: &[u8],
    value: Items<Bit9>,
) -> Result<State, PlainFail>
    ensures { IfOk result (λ s. s ≡ set_port name.now value state.now) }
{
    let mut wires = copied_all(alloc, state.wires.as_slice())?;
    set_pending(&mut wires, name, value);
    Ok(State {
        wires: Items::from_vec(wires),
        starting: state.starting,
    })
}

fn repeated(alloc: Global, bit: Bit9, width: u32) -> Result<Items<Bit9>, PlainFail>
    ensures { IfOk result (λ bits. bits ≡ replicate width bit) }
{
    let bits = vec![in alloc; bit; width as usize]?;
    Ok(Items::from_vec(bits))
}

fn one(alloc: Global, bit: Bit9) -> Result<Items<Bit9>, PlainFail>
    ensures { IfOk result (λ bits. bits ≡ bit ∷ []) }
{
    Ok(Items::from_slice(alloc, &[bit])?)
}

/// The state in which change 1 begins.
pub fn start(alloc: Global, design: &Design) -> Result<State, PlainFail>
    ensures { IfOk result (λ s. s ≡ start_of design.now) }
{
    let wires = all_wires(alloc, design)?;
    let state = State {
        wires: Items::from_vec(wires),
        starting: true,
    };
    let state = with_port(
        alloc,
        &state,
        b"inp",
        repeated(alloc, Bit9::Zero, design.inp)?,
    )?;
    let state = with_port(alloc, &state, b"rst", one(alloc, Bit9::One)?)?;
    with_port(alloc, &state, b"clk", one(alloc, Bit9::Zero)?)
}

/// The state in which a change with `clk` '1' begins.
pub fn risen(alloc: Global, state: &State) -> Result<State, PlainFail>
    ensures { IfOk result (λ s. s ≡ edge state.now) }
{
    with_port(alloc, state, b"clk", one(alloc, Bit9::One)?)
}

/// The state in which a change with an input begins.
pub fn with_input(alloc: Global, state: &State, input: &Items<Bit9>) -> Result<State, PlainFail>
    ensures { IfOk result (λ s. s ≡ given input.now state.now) }
{
    let bits = Items::from_slice(alloc, input.as_slice())?;
    let state = with_port(alloc, state, b"inp", bits)?;
    let state = with_port(alloc, &state, b"clk", one(alloc, Bit9::Zero)?)?;
    with_port(alloc, &state, b"rst", one(alloc, Bit9::Zero)?)
}

/// The value of `outp`.
pub fn reading(alloc: Global, state: &State) -> Result<Items<Bit9>, PlainFail>
    ensures { IfOk result (λ bits. bits ≡ outp_of state.now) }
{
    let store = seen_of(alloc, state.wires.as_slice())?;
    Ok(Items::from_slice(alloc, value_at(store.as_slice(), b"outp"))?)
}

fn clock(
    alloc: Global,
    design: &Design,
    most: u32,
    change: u32,
    state: State,
) -> Result<Result<State, u32>, PlainFail>
    requires { change + 1 < 2 ^ 32 }
    ensures { IfOk result (λ r. r ≡ clocked most design.now (text_schedule design.now) change state) }
{
    match settle(alloc, design, most, state)? {
        None => Ok(Err(change)),
        Some(low) => {
            let high = risen(alloc, &low.state)?;
            match settle(alloc, design, most, high)? {
                None => Ok(Err(change + 1)),
                Some(last) => Ok(Ok(last.state)),
            }
        }
    }
}

fn put_first(
    alloc: Global,
    first: Items<Bit9>,
    rest: Items<Items<Bit9>>,
) -> Result<Items<Items<Bit9>>, PlainFail>
    ensures { IfOk result (λ all. all ≡ first ∷ rest) }
{
    let mut all = Items::new(alloc);
    all.push(first)?;
    all.append(rest)?;
    Ok(all)
}

fn readings(
    alloc: Global,
    design: &Design,
    most: u32,
    change: u32,
    state: State,
    inputs: &[Items<Bit9>],
) -> Result<Result<Items<Items<Bit9>>, u32>, PlainFail>
    requires { change + 2 * length inputs.now + 1 < 2 ^ 32 }
    ensures { IfOk result (λ r. r ≡ readings_from most design.now (text_schedule design.now) change state inputs.now) }
{
    match clock(alloc, design, most, change, state)? {
        Err(late) => Ok(Err(late)),
        Ok(high) => {
            let first = reading(alloc, &high)?;
            match inputs {
                [] => Ok(Ok(put_first(alloc, first, Items::new(alloc))?)),
                [input, more @ ..] => {
                    let next = with_input(alloc, &high, input)?;
                    match readings(alloc, design, most, change + 2, next, more)? {
                        Err(late) => Ok(Err(late)),
                        Ok(rest) => Ok(Ok(put_first(alloc, first, rest)?)),
                    }
                }
            }
        }
    }
}

/// What the bench reads on these inputs in the order of the text, where each change is quiet after at most `most` delta
/// cycles, and else the number of the first change that is not, from 1. There are fewer than 2^30 inputs.
pub fn bench(
    alloc: Global,
    design: &Design,
    most: u32,
    inputs: &[Items<Bit9>],
) -> Result<Result<Items<Items<Bit9>>, u32>, PlainFail>
    requires { length inputs.now < 2 ^ 30 }
    ensures { IfOk result (λ r. r ≡ bench_readings most design.now (text_schedule design.now) inputs.now) }
{
    let state = start(alloc, design)?;
    readings(alloc, design, most, 1, state, inputs)
}
