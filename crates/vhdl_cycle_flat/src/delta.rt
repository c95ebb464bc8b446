// The processes of one delta cycle over flat buffers.
ghost use Rattle.std.specs.Prelude.{◌≡◌, ◌≤◌, ◌+◌, length, vec_len, vec_capacity, map, slice_set, Bool};
ghost use Rattle.vhdl_cycle_flat.specs.Flat.{expr_of, written};
ghost use Rattle.vhdl_cycle_flat.specs.Delta.{check_of, room_check, all_hold, room_checks, raised, in_order, room_in_order, drive_of, has_event, ran, room_ran};

use crate::Expr;
use crate::leaves::{equal, part, put};
use crate::process::{Check, Drive, Place, Process, World};
use crate::run::{append_expr, holds, standing};
use rw_base::Bit9;

pub fn raise(pending: &mut [bool], at: u32)
    ensures { pending.new ≡ raised at pending.old }
{
    let at = at as usize;
    if at < pending.len() {
        pending[at] = true;
    }
}

fn checks(check: &Check, w: World, now: &[Bit9], store: &mut [Bit9], out: &mut Vec<Bit9>) -> bool
    requires { vec_len out.old + room_check check.now (length store.old) now.now ≤ vec_capacity out.old }
    ensures value { result ≡ check_of check.now w (length store.old) now.now }
    ensures same { out.new.items ≡ out.old.items }
    ensures capacity { vec_capacity out.new ≡ vec_capacity out.old }
{
    match check {
        Check::Equal(test) => holds(test, now, store, out),
        Check::Rising => w.rising,
        Check::Reset => w.reset,
    }
}

fn all_check(
    tests: &[Check],
    w: World,
    now: &[Bit9],
    store: &mut [Bit9],
    out: &mut Vec<Bit9>,
) -> bool
    requires { vec_len out.old + room_checks tests.now (length store.old) now.now ≤ vec_capacity out.old }
    ensures value { result ≡ all_hold tests.now w (length store.old) now.now }
    ensures same { out.new.items ≡ out.old.items }
    ensures capacity { vec_capacity out.new ≡ vec_capacity out.old }
{
    for check in tests {
        if !checks(check, w, now, store, out) {
            return false;
        }
    }
    true
}

fn assign(
    next: &mut [Bit9],
    from: u32,
    e: &Expr,
    now: &[Bit9],
    store: &mut [Bit9],
    out: &mut Vec<Bit9>,
)
    requires { vec_len out.old + (expr_of e.now).room (length store.old) now.now ≤ vec_capacity out.old }
    ensures value { next.new ≡ written from ((expr_of e.now).value (length store.old) now.now) next.old }
    ensures same { out.new.items ≡ out.old.items }
    ensures capacity { vec_capacity out.new ≡ vec_capacity out.old }
{
    if let Some(bits) = standing(e, now) {
        put(next, from, bits);
        return;
    }
    let start = out.len();
    append_expr(out, e, now, store);
    put(next, from, &out[start..]);
    out.truncate(start);
}

#[cycle(drive)]
fn drive_all(
    body: &[Drive],
    w: World,
    now: &[Bit9],
    next: &mut [Bit9],
    pending: &mut [bool],
    store: &mut [Bit9],
    out: &mut Vec<Bit9>,
)
    requires { vec_len out.old + room_in_order (map drive_of body.now) (length store.old) now.now ≤ vec_capacity out.old }
    ensures value { record { next = next.new; pending = pending.new } ≡ in_order (map drive_of body.now) w (length store.old) now.now (record { next = next.old; pending = pending.old }) }
    ensures same { out.new.items ≡ out.old.items }
    ensures capacity { vec_capacity out.new ≡ vec_capacity out.old }
{
    for stmt in body {
        drive(stmt, w, now, next, pending, store, out);
    }
}

#[cycle(drive)]
fn drive(
    stmt: &Drive,
    w: World,
    now: &[Bit9],
    next: &mut [Bit9],
    pending: &mut [bool],
    store: &mut [Bit9],
    out: &mut Vec<Bit9>,
)
    requires { vec_len out.old + (drive_of stmt.now).room (length store.old) now.now ≤ vec_capacity out.old }
    ensures value { record { next = next.new; pending = pending.new } ≡ (drive_of stmt.now).after w (length store.old) now.now (record { next = next.old; pending = pending.old }) }
    ensures same { out.new.items ≡ out.old.items }
    ensures capacity { vec_capacity out.new ≡ vec_capacity out.old }
{
    match stmt {
        Drive::Assign(at, from, e) => {
            assign(next, *from, e, now, store, out);
            raise(pending, *at);
        }
        Drive::If(rows, other) => {
            for row in rows.as_slice() {
                if all_check(row.checks.as_slice(), w, now, store, out) {
                    drive_all(row.body.as_slice(), w, now, next, pending, store, out);
                    return;
                }
            }
            drive_all(other.as_slice(), w, now, next, pending, store, out);
        }
    }
}

fn event(now: &[Bit9], before: &[Bit9], places: &[Place]) -> bool
    ensures { result ≡ has_event now.now before.now places.now }
{
    for place in places {
        if !equal(
            part(now, place.from, place.len),
            part(before, place.from, place.len),
        ) {
            return true;
        }
    }
    false
}

pub fn run_processes(
    processes: &[Process],
    starting: bool,
    before: &[Bit9],
    w: World,
    now: &[Bit9],
    next: &mut [Bit9],
    pending: &mut [bool],
    store: &mut [Bit9],
    out: &mut Vec<Bit9>,
)
    requires { vec_len out.old + room_ran processes.now (length store.old) now.now ≤ vec_capacity out.old }
    ensures value { record { next = next.new; pending = pending.new } ≡ ran processes.now starting before.now w (length store.old) now.now (record { next = next.old; pending = pending.old }) }
    ensures same { out.new.items ≡ out.old.items }
    ensures capacity { vec_capacity out.new ≡ vec_capacity out.old }
{
    for process in processes {
        if starting || event(now, before, process.sensitive.as_slice()) {
            drive_all(process.body.as_slice(), w, now, next, pending, store, out);
        }
    }
}
