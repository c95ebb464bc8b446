// Delta cycles, and settling.
ghost use Rattle.std.specs.Prelude.{◌≡◌, ◌≤◌, OnOk, IfOk, IfSome, map};
ghost use Rattle.vh_tree.specs.Functions.{calls_of};
ghost use Rattle.vh_tree.specs.DeltaCycle.{seen, moved, all_effects, delta_cycle, is_quiet};
ghost use Rattle.vh_tree.specs.Bench.{settled, text_schedule};

use crate::PlainFail;
use crate::process::{drive_all, has_turn};
use sqlite_items::Items;
use std::alloc::Global;
use vh_tree::{Design, Held, Item, Moment, Process, Settled, State, Wire};

/// The values of ports and signals in one moment.
pub fn seen_of(alloc: Global, wires: &[Wire]) -> Result<Items<Held>, PlainFail>
    ensures { IfOk result (λ store. store ≡ seen wires.now) }
{
    let mut store = Vec::new(alloc);
    for wire in wires {
        let name = wire.name.copied(alloc)?;
        let value = Items::from_slice(alloc, wire.value.as_slice())?;
        store.push(Held { name, value })?;
    }
    Ok(Items::from_vec(store))
}

fn moved_wire(alloc: Global, wire: &Wire) -> Result<Wire, PlainFail>
    ensures { IfOk result (λ w. w ≡ moved wire.now) }
{
    let name = wire.name.copied(alloc)?;
    let value = match &wire.pending {
        Some(value) => Items::from_slice(alloc, value.as_slice())?,
        None => Items::from_slice(alloc, wire.value.as_slice())?,
    };
    Ok(Wire {
        name,
        value,
        pending: None,
    })
}

fn moved_all(alloc: Global, wires: &[Wire]) -> Result<Vec<Wire>, PlainFail>
    ensures { IfOk result (λ ws. ws.items ≡ map moved wires.now) }
{
    let mut all = Vec::new(alloc);
    for wire in wires {
        all.push(moved_wire(alloc, wire)?)?;
    }
    Ok(all)
}

fn run_in_order(
    alloc: Global,
    order: &[Process],
    moment: &Moment,
    items: &[Item],
    wires: &mut Vec<Wire>,
) -> Result<(), PlainFail>
    ensures { OnOk result (wires.new.items ≡ all_effects (calls_of items.now) moment.now order.now wires.old.items) }
{
    for process in order {
        if has_turn(moment, process) {
            drive_all(alloc, process.body.as_slice(), moment, items, wires)?;
        }
    }
    Ok(())
}

/// The state after one delta cycle, in which the processes that run do so in this order.
pub fn next_state(
    alloc: Global,
    design: &Design,
    order: &[Process],
    state: &State,
) -> Result<State, PlainFail>
    ensures { IfOk result (λ s. s ≡ delta_cycle design.now order.now state.now) }
{
    let before = seen_of(alloc, state.wires.as_slice())?;
    let mut wires = moved_all(alloc, state.wires.as_slice())?;
    let current = seen_of(alloc, &wires)?;
    let moment = Moment {
        starting: state.starting,
        before,
        current,
    };
    run_in_order(alloc, order, &moment, design.items.as_slice(), &mut wires)?;
    Ok(State {
        wires: Items::from_vec(wires),
        starting: false,
    })
}

/// Whether nothing is pending and the start cycle has run.
pub fn quiet(state: &State) -> bool
    ensures { result ≡ is_quiet state.now }
{
    if state.starting {
        return false;
    }
    for wire in state.wires.as_slice() {
        if wire.pending.is_some() {
            return false;
        }
    }
    true
}

/// The first quiet state, after at most this many delta cycles in the order of the text, and their count.
pub fn settle(
    alloc: Global,
    design: &Design,
    most: u32,
    state: State,
) -> Result<Option<Settled>, PlainFail>
    ensures value { IfOk result (λ r. r ≡ settled design.now (text_schedule design.now 0) most state) }
    ensures within { IfOk result (λ r. IfSome r (λ t. t.count ≤ most)) }
{
    if quiet(&state) {
        return Ok(Some(Settled { state, count: 0 }));
    }
    if most == 0 {
        return Ok(None);
    }
    let next = next_state(alloc, design, design.processes.as_slice(), &state)?;
    match settle(alloc, design, most - 1, next)? {
        None => Ok(None),
        Some(t) => Ok(Some(Settled {
            state: t.state,
            count: t.count + 1,
        })),
    }
}
