// Expressions and functions with bounds, for every frame, of how long their values are and how much scratch they take.
ghost use Rattle.std.specs.Prelude.{◌≡◌, ◌≤◌, ◌+◌, ◌++◌, ℕ, [], length, map, IfOk, OnOk};
ghost use Rattle.vh_tree.specs.Bits.{Bits, slice_of};
ghost use Rattle.vhdl_cycle_flat.specs.Flat.{expr_of, fun_of, joined, room_joined, called, part_of};
ghost use Rattle.vhdl_cycle_flat.specs.declared.slot.Slot.{Slot as Stands};

use rw_base::{Bit9, OutOfMemory};
use sqlite_items::{Boxed, Items};
use std::alloc::Global;
use std::rc::Rc;
use vhdl_cycle_flat::{Expr, Fun, Slot};

// An expression, the width in bits that its value has at most, and how many bits of scratch it takes at most.
#[derive(Drop)]
pub struct Sized {
    pub expr: Expr,
    pub width: u32,
    pub room: u32,
    ghost narrow: { (n : ℕ) (frame : Bits) → length ((expr_of expr).value n frame) ≤ width },
    ghost light: { (n : ℕ) (frame : Bits) → (expr_of expr).room n frame ≤ room },
}

// Expressions that are joined, and the same of the whole.
#[derive(Drop)]
pub struct Parts {
    pub exprs: Items<Expr>,
    pub width: u32,
    pub room: u32,
    ghost narrow: { (n : ℕ) (frame : Bits) → length (joined (map expr_of exprs) n frame) ≤ width },
    ghost light: { (n : ℕ) (frame : Bits) → room_joined (map expr_of exprs) n frame ≤ room },
}

// A function, and the same of its calls.
#[derive(Drop)]
pub struct Known {
    pub fun: Rc<Fun>,
    pub width: u32,
    pub room: u32,
    ghost narrow: { (n : ℕ) (own : Bits) → length ((fun_of fun.value).run.value n own) ≤ width },
    ghost light: { (n : ℕ) (own : Bits) → (fun_of fun.value).run.room n own ≤ room },
}

// A sum, where it is a number of 32 bits; more bits than that find no memory.
pub fn sum(a: u32, b: u32) -> Result<u32, OutOfMemory>
    ensures { IfOk result (λ c. c ≡ a + b) }
{
    match a.checked_add(b) {
        Some(c) => Ok(c),
        None => Err(OutOfMemory),
    }
}

// The bits of a place.
pub fn part(slot: Slot) -> Sized
    ensures { (n : ℕ) (frame : Bits) → (expr_of result.expr).value n frame ≡ part_of slot.from slot.len frame }
{
    Sized {
        expr: Expr::Part(slot.from, slot.len),
        width: slot.len,
        room: slot.len,
    }
}

// The bits of a place from one down to another.
pub fn slice(slot: Slot, high: u32, low: u32) -> Sized
    ensures { (n : ℕ) (frame : Bits) → (expr_of result.expr).value n frame ≡ slice_of high low (part_of slot.from slot.len frame) }
{
    let width = slot.len.min(high.saturating_sub(low).saturating_add(1));
    Sized {
        expr: Expr::Slice(slot.from, slot.len, high, low),
        width,
        room: width,
    }
}

// The bits of a value from one down to another.
pub fn cut(alloc: Global, whole: Sized, high: u32, low: u32) -> Result<Sized, OutOfMemory>
    ensures { IfOk result (λ r. (n : ℕ) (frame : Bits) → (expr_of r.expr).value n frame ≡ slice_of high low ((expr_of whole.expr).value n frame)) }
{
    Ok(Sized {
        expr: Expr::Cut(Boxed::new(alloc, whole.expr)?, high, low),
        width: whole.width.min(high.saturating_sub(low).saturating_add(1)),
        room: whole.room,
    })
}

// These bits.
pub fn literal(alloc: Global, bits: &[Bit9]) -> Result<Sized, OutOfMemory>
    ensures { IfOk result (λ r. (n : ℕ) (frame : Bits) → (expr_of r.expr).value n frame ≡ bits.now) }
{
    let Ok(width) = u32::try_from(bits.len()) else {
        return Err(OutOfMemory);
    };
    Ok(Sized {
        expr: Expr::Literal(Items::from_slice(alloc, bits)?),
        width,
        room: width,
    })
}

// A function of arguments that are joined.
pub fn call(known: &Known, args: Parts) -> Result<Sized, OutOfMemory>
    ensures { IfOk result (λ r. (n : ℕ) (frame : Bits) → (expr_of r.expr).value n frame ≡ called (fun_of known.now.fun.value) n (joined (map expr_of args.exprs) n frame)) }
{
    let fun = known.fun.clone()?;
    Ok(Sized {
        expr: Expr::Call(fun, args.exprs),
        width: known.width,
        room: known.room.max(args.room),
    })
}

impl Parts {
    // Nothing.
    pub fn new(alloc: Global) -> Parts
        ensures { (n : ℕ) (frame : Bits) → joined (map expr_of result.exprs) n frame ≡ [] }
    {
        Parts {
            exprs: Items::new(alloc),
            width: 0,
            room: 0,
        }
    }

    // One more at the end.
    pub fn push(&mut self, part: Sized) -> Result<(), OutOfMemory>
        ensures { OnOk result ((n : ℕ) (frame : Bits) → joined (map expr_of self.new.exprs) n frame ≡ joined (map expr_of self.old.exprs) n frame ++ (expr_of part.expr).value n frame) }
    {
        let width = sum(self.width, part.width)?;
        let room = sum(self.width, part.width.max(part.room))?;
        self.exprs.push(part.expr)?;
        self.width = width;
        self.room = self.room.max(room);
        Ok(())
    }

    // The whole as one expression.
    pub fn join(self) -> Sized
        ensures { (n : ℕ) (frame : Bits) → (expr_of result.expr).value n frame ≡ joined (map expr_of self.exprs) n frame }
    {
        Sized {
            expr: Expr::Join(self.exprs),
            width: self.width,
            room: self.room,
        }
    }
}
