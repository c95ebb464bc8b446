// Expressions, with places in place of names and functions in place of theirs (IEEE Std 1076-1993, section 7).
ghost use Rattle.std.specs.Prelude.{◌≡◌, ℕ, IfOk, map};
ghost use Rattle.std.specs.List.{flat_map};
ghost use Rattle.vh_tree.specs.Bits.{Bits, slice_of};
ghost use Rattle.vh_tree.specs.Functions.{expr_of as means};
ghost use Rattle.vhdl_cycle_flat.specs.Flat.{expr_of, joined};
ghost use Rattle.vhdl_cycle_flat.specs.Names.{value_over, called_over, scope_over};
ghost use Rattle.vhdl_cycle_resolve.specs.Over.{slots_in, frames_in};

use crate::sized::{Known, Parts, Sized, call, cut, literal, part, slice};
use crate::table::get;
use rw_base::OutOfMemory;
use rw_base_tables::Table;
use std::alloc::Global;
use vh_tree::{Ident, VExpr};
use vhdl_cycle_flat::Slot;

fn resolve_name(
    alloc: Global,
    name: &Ident,
    slots: &Table<Slot>,
    funs: &Table<Known>,
) -> Result<Sized, OutOfMemory>
    ensures { IfOk result (λ r. (n : ℕ) (frame : Bits) → (expr_of r.expr).value n frame ≡ value_over (slots_in slots.now name.now) (frames_in funs.now name.now) n frame) }
{
    match get(slots, name) {
        Some(slot) => Ok(part(*slot)),
        None => resolve_call(alloc, name, Parts::new(alloc), funs),
    }
}

// A name without a place is that of a function without parameters, of whose value some bits are cut.
fn resolve_slice(
    alloc: Global,
    name: &Ident,
    high: u32,
    low: u32,
    slots: &Table<Slot>,
    funs: &Table<Known>,
) -> Result<Sized, OutOfMemory>
    ensures { IfOk result (λ r. (n : ℕ) (frame : Bits) → (expr_of r.expr).value n frame ≡ slice_of high low (value_over (slots_in slots.now name.now) (frames_in funs.now name.now) n frame)) }
{
    match get(slots, name) {
        Some(slot) => Ok(slice(*slot, high, low)),
        None => {
            let whole = resolve_name(alloc, name, slots, funs)?;
            cut(alloc, whole, high, low)
        }
    }
}

fn resolve_call(
    alloc: Global,
    name: &Ident,
    args: Parts,
    funs: &Table<Known>,
) -> Result<Sized, OutOfMemory>
    ensures { IfOk result (λ r. (n : ℕ) (frame : Bits) → (expr_of r.expr).value n frame ≡ called_over (frames_in funs.now name.now) n (joined (map expr_of args.exprs) n frame)) }
{
    match get(funs, name) {
        Some(known) => call(known, args),
        None => literal(alloc, &[]),
    }
}

// Puts places in place of the names of an expression.
#[cycle(resolve)]
pub fn resolve_expr(
    alloc: Global,
    e: &VExpr,
    slots: &Table<Slot>,
    funs: &Table<Known>,
) -> Result<Sized, OutOfMemory>
    ensures { IfOk result (λ r. (n : ℕ) (frame : Bits) → (expr_of r.expr).value n frame ≡ means e.now (scope_over (slots_in slots.now) (frames_in funs.now) n frame)) }
{
    match e {
        VExpr::Name(name) => resolve_name(alloc, name, slots, funs),
        VExpr::Literal(bits) => literal(alloc, bits.as_slice()),
        VExpr::Slice(name, high, low) => resolve_slice(alloc, name, *high, *low, slots, funs),
        VExpr::Call(name, args) => {
            let args = resolve_all(alloc, args.as_slice(), slots, funs)?;
            resolve_call(alloc, name, args, funs)
        }
        VExpr::Join(parts) => Ok(resolve_all(alloc, parts.as_slice(), slots, funs)?.join()),
    }
}

#[cycle(resolve)]
fn resolve_all(
    alloc: Global,
    parts: &[VExpr],
    slots: &Table<Slot>,
    funs: &Table<Known>,
) -> Result<Parts, OutOfMemory>
    ensures { IfOk result (λ rs. (n : ℕ) (frame : Bits) → joined (map expr_of rs.exprs) n frame ≡ flat_map (λ p. p (scope_over (slots_in slots.now) (frames_in funs.now) n frame)) (map means parts.now)) }
{
    let mut out = Parts::new(alloc);
    for part in parts {
        let r = resolve_expr(alloc, part, slots, funs)?;
        out.push(r)?;
    }
    Ok(out)
}
