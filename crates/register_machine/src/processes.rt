// The two processes of a design with one register.
ghost use Rattle.std.specs.Prelude.{◌≡◌, ◌<◌, ◌^◌, IfOk};
ghost use Rattle.register_machine.specs.Codes as codes;
ghost use Rattle.register_machine.specs.OneRegister as one_register;
ghost use Rattle.register_machine.specs.Design as machines;

use crate::codes::code;
use crate::parts::{assign, name, one, two, when_holds};
use rw_base::OutOfMemory;
use sqlite_items::Items;
use std::alloc::Global;
use vh_tree::{Ident, Process, Test, VExpr, VStmt};

/// `f0 ( inp , s0 )`.
fn next_call(alloc: Global) -> Result<VExpr, OutOfMemory>
    ensures { IfOk result (λ e. e ≡ machines.next_call) }
{
    let input = name(alloc, b"inp")?;
    let state = name(alloc, b"s0")?;
    let arguments = two(alloc, input, state)?;
    Ok(VExpr::Call(Ident::from_slice(alloc, b"f0")?, arguments))
}

/// `f1 ( s0 )`.
fn shown_call(alloc: Global) -> Result<VExpr, OutOfMemory>
    ensures { IfOk result (λ e. e ≡ machines.shown_call) }
{
    let arguments = one(alloc, name(alloc, b"s0")?)?;
    Ok(VExpr::Call(Ident::from_slice(alloc, b"f1")?, arguments))
}

/// On a rising clock one statement where `rst` is '1', and else the other.
fn on_clock(alloc: Global, restart: VStmt, step: VStmt) -> Result<VStmt, OutOfMemory>
    ensures { IfOk result (λ s. s ≡ one_register.on_clock restart step) }
{
    let other = one(alloc, step)?;
    let inner = when_holds(alloc, Test::Reset, one(alloc, restart)?, other)?;
    when_holds(alloc, Test::Rising, one(alloc, inner)?, Items::new(alloc))
}

/// A process of one statement that listens to one name.
fn process(alloc: Global, heard: &[u8], statement: VStmt) -> Result<Process, OutOfMemory>
    ensures { IfOk result (λ p. p ≡ one_register.process_of heard.now statement) }
{
    Ok(Process {
        sensitive: one(alloc, Ident::from_slice(alloc, heard)?)?,
        body: one(alloc, statement)?,
    })
}

/// The process that keeps the state, of which there are `states`.
pub(crate) fn clocked_process(
    alloc: Global,
    states: usize,
    reset: usize,
) -> Result<Process, OutOfMemory>
    requires few { states < 2 ^ 32 }
    requires within { reset < states }
    ensures { IfOk result (λ p. p ≡ one_register.clocked (codes.code states reset) machines.next_call) }
{
    let first = VExpr::Literal(code(alloc, states, reset)?);
    let restart = assign(alloc, b"s0", first)?;
    let step = assign(alloc, b"s0", next_call(alloc)?)?;
    process(alloc, b"clk", on_clock(alloc, restart, step)?)
}

/// The process that shows the output of the state.
pub(crate) fn showing_process(alloc: Global) -> Result<Process, OutOfMemory>
    ensures { IfOk result (λ p. p ≡ one_register.showing machines.shown_call) }
{
    let shown = shown_call(alloc)?;
    process(alloc, b"s0", assign(alloc, b"outp", shown)?)
}
