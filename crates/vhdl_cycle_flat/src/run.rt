// Values of expressions, and functions that run, over flat buffers.
ghost use Rattle.std.specs.Prelude.{◌≡◌, ℕ, ◌≤◌, IfSome, ◌+◌, ◌++◌, length, vec_len, vec_capacity, map, take, drop};
ghost use Rattle.vhdl_cycle_flat.specs.Flat.{expr_of, stmt_of, branch_of, fun_of, test_of, joined, room_joined, written, in_order, room_in_order};
ghost use Rattle.vhdl_cycle_flat.specs.Flat.{room_tests, all_hold as all_of, called, room_called};

use crate::leaves::{append, bit_holds, copy, cut, enter, equal, part, put, slice};
use crate::{Expr, Fun, Stmt, Test};
use rw_base::Bit9;

/// The value of an expression, where its bits stand somewhere already.
pub fn standing<'a>(e: &'a Expr, frame: &'a [Bit9]) -> Option<&'a [Bit9]>
    ensures { IfSome result (λ bits. (n : ℕ) → bits.now ≡ (expr_of e.now).value n frame.now) }
{
    match e {
        Expr::Part(from, len) => Some(part(frame, *from, *len)),
        Expr::Slice(from, len, high, low) => Some(slice(part(frame, *from, *len), *high, *low)),
        Expr::Literal(bits) => Some(bits.as_slice()),
        _ => None,
    }
}

/// Appends the value of an expression.
#[cycle(run)]
pub fn append_expr(out: &mut Vec<Bit9>, e: &Expr, frame: &[Bit9], store: &mut [Bit9])
    requires { vec_len out.old + (expr_of e.now).room (length store.old) frame.now ≤ vec_capacity out.old }
    ensures value { out.new.items ≡ out.old.items ++ (expr_of e.now).value (length store.old) frame.now }
    ensures capacity { vec_capacity out.new ≡ vec_capacity out.old }
{
    match e {
        Expr::Part(from, len) => append(out, part(frame, *from, *len)),
        Expr::Slice(from, len, high, low) => append(
            out,
            slice(part(frame, *from, *len), *high, *low),
        ),
        Expr::Cut(inner, high, low) => {
            let start = out.len();
            append_expr(out, inner.get(), frame, store);
            cut(out, start, *high, *low);
        }
        Expr::Literal(bits) => append(out, bits.as_slice()),
        Expr::Join(parts) => append_all(out, parts.as_slice(), frame, store),
        Expr::Call(fun, args) => {
            let start = out.len();
            append_all(out, args.as_slice(), frame, store);
            call(out, start, fun, store);
        }
    }
}

#[cycle(run)]
fn append_all(out: &mut Vec<Bit9>, parts: &[Expr], frame: &[Bit9], store: &mut [Bit9])
    requires { vec_len out.old + room_joined (map expr_of parts.now) (length store.old) frame.now ≤ vec_capacity out.old }
    ensures value { out.new.items ≡ out.old.items ++ joined (map expr_of parts.now) (length store.old) frame.now }
    ensures capacity { vec_capacity out.new ≡ vec_capacity out.old }
{
    for part in parts {
        append_expr(out, part, frame, store);
    }
}

#[cycle(run)]
fn call(out: &mut Vec<Bit9>, start: usize, fun: &Fun, store: &mut [Bit9])
    requires within { start ≤ vec_len out.old }
    requires room { start + room_called (fun_of fun.now) (length store.old) (drop start out.old.items) ≤ vec_capacity out.old }
    ensures value { out.new.items ≡ take start out.old.items ++ called (fun_of fun.now) (length store.old) (drop start out.old.items) }
    ensures capacity { vec_capacity out.new ≡ vec_capacity out.old }
{
    let low = store.len().min(fun.from as usize);
    let (lower, rest) = store.split_at_mut(low);
    let size = rest.len().min(fun.size as usize);
    let (own, _) = rest.split_at_mut(size);
    enter(own, &out[start..]);
    out.truncate(start);
    run_frame(out, fun, own, lower);
}

#[cycle(run)]
fn run_frame(out: &mut Vec<Bit9>, fun: &Fun, own: &mut [Bit9], lower: &mut [Bit9])
    requires { vec_len out.old + (fun_of fun.now).run.room (length lower.old) own.old ≤ vec_capacity out.old }
    ensures value { out.new.items ≡ out.old.items ++ (fun_of fun.now).run.value (length lower.old) own.old }
    ensures capacity { vec_capacity out.new ≡ vec_capacity out.old }
{
    run_all(fun.body.as_slice(), own, lower, out);
    append_expr(out, &fun.result, own, lower);
}

/// Runs statements of a function, in order.
#[cycle(run)]
pub fn run_all(body: &[Stmt], own: &mut [Bit9], lower: &mut [Bit9], out: &mut Vec<Bit9>)
    requires { vec_len out.old + room_in_order (map stmt_of body.now) (length lower.old) own.old ≤ vec_capacity out.old }
    ensures value { own.new ≡ in_order (map stmt_of body.now) (length lower.old) own.old }
    ensures same { out.new.items ≡ out.old.items }
    ensures capacity { vec_capacity out.new ≡ vec_capacity out.old }
{
    for stmt in body {
        run(stmt, own, lower, out);
    }
}

#[cycle(run)]
fn assign(own: &mut [Bit9], from: u32, e: &Expr, lower: &mut [Bit9], out: &mut Vec<Bit9>)
    requires { vec_len out.old + (expr_of e.now).room (length lower.old) own.old ≤ vec_capacity out.old }
    ensures value { own.new ≡ written from ((expr_of e.now).value (length lower.old) own.old) own.old }
    ensures same { out.new.items ≡ out.old.items }
    ensures capacity { vec_capacity out.new ≡ vec_capacity out.old }
{
    match e {
        Expr::Literal(bits) => put(own, from, bits.as_slice()),
        Expr::Part(source, len) => copy(own, from, *source, *len),
        _ => {
            let start = out.len();
            append_expr(out, e, own, lower);
            put(own, from, &out[start..]);
            out.truncate(start);
        }
    }
}

#[cycle(run)]
fn run(stmt: &Stmt, own: &mut [Bit9], lower: &mut [Bit9], out: &mut Vec<Bit9>)
    requires { vec_len out.old + (stmt_of stmt.now).room (length lower.old) own.old ≤ vec_capacity out.old }
    ensures value { own.new ≡ (stmt_of stmt.now).after (length lower.old) own.old }
    ensures same { out.new.items ≡ out.old.items }
    ensures capacity { vec_capacity out.new ≡ vec_capacity out.old }
{
    match stmt {
        Stmt::Assign(from, e) => assign(own, *from, e, lower, out),
        Stmt::If(branches, other) => {
            for branch in branches.as_slice() {
                if all_hold(branch.tests.as_slice(), own, lower, out) {
                    run_all(branch.body.as_slice(), own, lower, out);
                    return;
                }
            }
            run_all(other.as_slice(), own, lower, out);
        }
        Stmt::When(bit, body, other) => {
            if bit_holds(*bit, own) {
                run_all(body.as_slice(), own, lower, out);
            } else {
                run_all(other.as_slice(), own, lower, out);
            }
        }
    }
}

#[cycle(run)]
fn all_hold(tests: &[Test], own: &[Bit9], lower: &mut [Bit9], out: &mut Vec<Bit9>) -> bool
    requires { vec_len out.old + room_tests (map test_of tests.now) (length lower.old) own.now ≤ vec_capacity out.old }
    ensures value { result ≡ all_of (map test_of tests.now) (length lower.old) own.now }
    ensures same { out.new.items ≡ out.old.items }
    ensures capacity { vec_capacity out.new ≡ vec_capacity out.old }
{
    for test in tests {
        if !holds(test, own, lower, out) {
            return false;
        }
    }
    true
}

#[cycle(run)]
pub fn holds(test: &Test, own: &[Bit9], lower: &mut [Bit9], out: &mut Vec<Bit9>) -> bool
    requires { vec_len out.old + (test_of test.now).room (length lower.old) own.now ≤ vec_capacity out.old }
    ensures value { result ≡ (test_of test.now).holds (length lower.old) own.now }
    ensures same { out.new.items ≡ out.old.items }
    ensures capacity { vec_capacity out.new ≡ vec_capacity out.old }
{
    if let Some(bits) = standing(&test.left, own) {
        return equal(bits, test.bits.as_slice());
    }
    let start = out.len();
    append_expr(out, &test.left, own, lower);
    let same = equal(&out[start..], test.bits.as_slice());
    out.truncate(start);
    same
}
