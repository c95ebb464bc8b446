// Functions, with places in place of names (IEEE Std 1076-1993, section 2).
ghost use Rattle.std.specs.Prelude.{◌≡◌, ◌≤◌, ◌+◌, ℕ, IfOk, map};
ghost use Rattle.vh_tree.specs.Bits.{Bits};
ghost use Rattle.vhdl_cycle_flat.specs.Flat.{expr_of, stmt_of, fun_of, in_order, room_in_order};
ghost use Rattle.vhdl_cycle_flat.specs.Names.{no_frames};
ghost use Rattle.vhdl_cycle_flat.specs.Resolving.{IsFrameOf};
ghost use Rattle.vhdl_cycle_resolve.specs.Over.{frames_in};
ghost use Rattle.vhdl_cycle_resolve.specs.Framed.{IsFramed};

use crate::expr::resolve_expr;
use crate::layout::frame_of;
use crate::sized::{Known, Sized, sum};
use crate::stmt::resolve_stmts;
use rw_base::OutOfMemory;
use rw_base_tables::Table;
use sqlite_items::Items;
use std::alloc::Global;
use std::rc::Rc;
use vh_tree::{Function, Item};
use vhdl_cycle_flat::{Fun, Stmt};

// The functions of a design, and how many bits their frames have together.
#[derive(Drop)]
pub struct Functions {
    pub known: Table<Known>,
    pub store: u32,
}

// A function of these statements, which need at most this room, and this result.
fn known(
    alloc: Global,
    from: u32,
    size: u32,
    body: Items<Stmt>,
    room: u32,
    value: Sized,
) -> Result<Known, OutOfMemory>
    requires { (n : ℕ) (own : Bits) → room_in_order (map stmt_of body) n own ≤ room }
    ensures from { IfOk result (λ k. (fun_of k.fun.value).from ≡ from) }
    ensures size { IfOk result (λ k. (fun_of k.fun.value).size ≡ size) }
    ensures run { IfOk result (λ k. (n : ℕ) (own : Bits) → (fun_of k.fun.value).run.value n own ≡ (expr_of value.expr).value n (in_order (map stmt_of body) n own)) }
{
    let fun = Fun {
        from,
        size,
        body,
        result: value.expr,
    };
    Ok(Known {
        fun: Rc::new(alloc, fun)?,
        width: value.width,
        room: room.max(value.room),
    })
}

// Puts places in place of the names of a function, whose frame begins where those before it end.
fn resolve_function(
    alloc: Global,
    function: &Function,
    funs: &Table<Known>,
    store: &mut u32,
) -> Result<Known, OutOfMemory>
    ensures frame { IfOk result (λ k. IsFrameOf (frames_in funs.now) store.old function.now (fun_of k.fun.value)) }
    ensures store { IfOk result (λ k. store.new ≡ store.old + (fun_of k.fun.value).size) }
{
    let vars = frame_of(alloc, function)?;
    let mut room = 0;
    let body = resolve_stmts(
        alloc,
        function.body.as_slice(),
        &vars.slots,
        funs,
        &mut room,
    )?;
    let value = resolve_expr(alloc, &function.result, &vars.slots, funs)?;
    let from = *store;
    *store = sum(from, vars.bits)?;
    known(alloc, from, vars.bits, body, room, value)
}

// The functions of these items, each over those before it.
pub fn functions_of(alloc: Global, items: &[Item]) -> Result<Functions, OutOfMemory>
    ensures { IfOk result (λ fs. IsFramed no_frames 0 items.now fs) }
{
    let mut funs = Table::new(alloc);
    let mut store = 0;
    for item in items {
        match item {
            Item::Signal(_) => (),
            Item::Function(function) => {
                let known = resolve_function(alloc, function, &funs, &mut store)?;
                funs.put(alloc, function.name.as_slice(), known)?;
            }
        }
    }
    Ok(Functions { known: funs, store })
}
