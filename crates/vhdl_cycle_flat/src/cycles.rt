// Delta cycles over flat buffers, one after another until nothing is pending.
ghost use Rattle.std.specs.Prelude.{◌≡◌, ◌≤◌, ◌+◌, ℕ, List, length, vec_len, vec_capacity, replicate, Bool, true, false, not, ◌&&◌};
ghost use Rattle.std.specs.List.{list_any};
ghost use Rattle.vh_tree.specs.DeltaCycle.{rises as rises_of};
ghost use Rattle.vh_tree.specs.Bits.{Bits};
ghost use Rattle.vhdl_cycle_flat.specs.Delta.{room_ran};
ghost use Rattle.vhdl_cycle_flat.specs.Cycles.{State, delta_of, cycles_of, is_quiet, IsSettling, Reaches};

use crate::delta::run_processes;
use crate::leaves::{equal, part};
use crate::process::{Process, World};
use rw_base::Bit9;
use vh_tree::rising;

fn rises(last: &[Bit9], now: &[Bit9]) -> bool
    ensures { result ≡ rises_of last.now now.now }
{
    match last {
        [a] => match now {
            [b] => rising(*a, *b),
            _ => false,
        },
        _ => false,
    }
}

fn lower_all(pending: &mut [bool])
    ensures { pending.new ≡ replicate (length pending.old) false }
{
    for p in pending.iter_mut() {
        *p = false;
    }
}

fn any(pending: &[bool]) -> bool
    ensures { result ≡ list_any (λ (p : Bool). p) pending.now }
{
    for p in pending {
        if *p {
            return true;
        }
    }
    false
}

/// One delta cycle, in the order of the text.
fn delta(
    processes: &[Process],
    starting: &mut bool,
    now: &mut [Bit9],
    before: &mut [Bit9],
    next: &mut [Bit9],
    pending: &mut [bool],
    store: &mut [Bit9],
    out: &mut Vec<Bit9>,
)
    requires before_fits { length before.old ≡ length now.old }
    requires next_fits { length next.old ≡ length now.old }
    requires room { vec_len out.old + room_ran processes.now (length store.old) next.old ≤ vec_capacity out.old }
    ensures value { record { now = now.new; before = before.new; next = next.new; pending = pending.new; starting = starting.new } ≡ delta_of processes.now (length store.old) (record { now = now.old; before = before.old; next = next.old; pending = pending.old; starting = starting.old }) }
    ensures same { out.new.items ≡ out.old.items }
    ensures capacity { vec_capacity out.new ≡ vec_capacity out.old }
{
    before.copy_from_slice(now);
    now.copy_from_slice(next);
    lower_all(pending);
    let rising = !*starting
        && !equal(part(before, 0, 1), part(now, 0, 1))
        && rises(part(before, 0, 1), part(now, 0, 1));
    let reset = equal(part(now, 1, 1), &[Bit9::One]);
    let w = World { rising, reset };
    run_processes(
        processes, *starting, before, w, now, next, pending, store, out,
    );
    *starting = false;
}

fn quiet(starting: bool, pending: &[bool]) -> bool
    ensures { result ≡ (not starting && not (list_any (λ (p : Bool). p) pending.now)) }
{
    !starting && !any(pending)
}

/// Runs delta cycles until nothing is pending, at most 64.
pub fn settle(
    processes: &[Process],
    starting: &mut bool,
    now: &mut [Bit9],
    before: &mut [Bit9],
    next: &mut [Bit9],
    pending: &mut [bool],
    store: &mut [Bit9],
    out: &mut Vec<Bit9>,
) -> Option<u32>
    requires before_fits { length before.old ≡ length now.old }
    requires next_fits { length next.old ≡ length now.old }
    requires room { (frame : Bits) → vec_len out.old + room_ran processes.now (length store.old) frame ≤ vec_capacity out.old }
    ensures value { IsSettling processes.now (length store.old) 64 (record { now = now.old; before = before.old; next = next.old; pending = pending.old; starting = starting.old }) (record { now = now.new; before = before.new; next = next.new; pending = pending.new; starting = starting.new }) result }
    ensures reaches { Reaches processes.now (length store.old) (record { now = now.old; before = before.old; next = next.old; pending = pending.old; starting = starting.old }) (record { now = now.new; before = before.new; next = next.new; pending = pending.new; starting = starting.new }) }
    ensures same { out.new.items ≡ out.old.items }
    ensures capacity { vec_capacity out.new ≡ vec_capacity out.old }
{
    for count in 0..65 {
        if quiet(*starting, pending) {
            return Some(count);
        }
        delta(processes, starting, now, before, next, pending, store, out);
    }
    None
}
