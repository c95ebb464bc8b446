// The two functions of a machine: the next state of an input and a state, and the output of a state.
ghost use Rattle.std.specs.Prelude.{◌≡◌, ◌<◌, length, codes, IfOk};
ghost use Rattle.register_machine.specs.Machine.{IsMachine, shown_in, next_of};
ghost use Rattle.register_machine.specs.Design as machines;

use crate::Machine;
use crate::decision::{Leaves, code_decision};
use crate::parts::{code_assigned, coded, copied, name, one, two};
use rw_base::OutOfMemory;
use sqlite_items::Items;
use std::alloc::Global;
use vh_tree::{Function, Ident, VStmt, Var};

/// For each input, the assignment of the next state from one state.
#[derive(Drop)]
struct NextOfState<'a> {
    machine: &'a Machine,
    state: usize,
}

impl Leaves for NextOfState<'_> {
    ghost has = { λ leaves i. IsMachine leaves.machine.now × (leaves.state < length leaves.machine.now.states) × (i < leaves.machine.now.inputs) };

    ghost leaf = { λ leaves i. machines.code_assigned (codes "v2") (length leaves.machine.now.states) (next_of leaves.machine.now leaves.state i) };

    fn statements(&self, alloc: Global, number: usize) -> Result<Items<VStmt>, OutOfMemory> {
        let states = self.machine.states.as_slice();
        let next = states[self.state].next.as_slice()[number];
        code_assigned(alloc, b"v2", states.len(), next)
    }
}

/// For each state, the decision for each input.
#[derive(Drop)]
struct NextOfAll<'a> {
    machine: &'a Machine,
}

impl Leaves for NextOfAll<'_> {
    ghost has = { λ leaves s. IsMachine leaves.machine.now × (s < length leaves.machine.now.states) };

    ghost leaf = { λ leaves s. machines.input_decision leaves.machine.now s };

    fn statements(&self, alloc: Global, number: usize) -> Result<Items<VStmt>, OutOfMemory> {
        let leaves = NextOfState {
            machine: self.machine,
            state: number,
        };
        code_decision(alloc, b"v0", self.machine.inputs, &leaves)
    }
}

/// For each state, the assignment of its output.
#[derive(Drop)]
struct Shown<'a> {
    machine: &'a Machine,
}

impl Leaves for Shown<'_> {
    ghost has = { λ leaves s. IsMachine leaves.machine.now × (s < length leaves.machine.now.states) };

    ghost leaf = { λ leaves s. machines.code_assigned (codes "v1") leaves.machine.now.outputs (shown_in leaves.machine.now s) };

    fn statements(&self, alloc: Global, number: usize) -> Result<Items<VStmt>, OutOfMemory> {
        let shown = self.machine.states.as_slice()[number].shown;
        code_assigned(alloc, b"v1", self.machine.outputs, shown)
    }
}

/// The variables of `f0`.
fn next_variables(alloc: Global, machine: &Machine) -> Result<Items<Var>, OutOfMemory>
    requires { IsMachine machine.now }
    ensures { IfOk result (λ vars. vars ≡ machines.next_variables machine.now) }
{
    let states = machine.states.len();
    let input = coded(alloc, b"v0", machine.inputs)?;
    let state = coded(alloc, b"v1", states)?;
    let mut vars = two(alloc, input, state)?;
    vars.push(coded(alloc, b"v2", states)?)?;
    Ok(vars)
}

/// The statements of `f0`.
fn next_body(alloc: Global, machine: &Machine) -> Result<Items<VStmt>, OutOfMemory>
    requires { IsMachine machine.now }
    ensures { IfOk result (λ body. body ≡ machines.next_body machine.now) }
{
    let input = copied(alloc, b"v0", b"p0")?;
    let state = copied(alloc, b"v1", b"p1")?;
    let mut body = two(alloc, input, state)?;
    let leaves = NextOfAll { machine };
    body.append(code_decision(alloc, b"v1", machine.states.len(), &leaves)?)?;
    Ok(body)
}

/// `f0`: the next state, from an input and a state.
pub(crate) fn next_function(alloc: Global, machine: &Machine) -> Result<Function, OutOfMemory>
    requires { IsMachine machine.now }
    ensures { IfOk result (λ f. f ≡ machines.next_function machine.now) }
{
    let input = Ident::from_slice(alloc, b"p0")?;
    let state = Ident::from_slice(alloc, b"p1")?;
    Ok(Function {
        name: Ident::from_slice(alloc, b"f0")?,
        params: two(alloc, input, state)?,
        vars: next_variables(alloc, machine)?,
        body: next_body(alloc, machine)?,
        result: name(alloc, b"v2")?,
    })
}

/// The variables of `f1`.
fn shown_variables(alloc: Global, machine: &Machine) -> Result<Items<Var>, OutOfMemory>
    requires { IsMachine machine.now }
    ensures { IfOk result (λ vars. vars ≡ machines.shown_variables machine.now) }
{
    let state = coded(alloc, b"v0", machine.states.len())?;
    let output = coded(alloc, b"v1", machine.outputs)?;
    two(alloc, state, output)
}

/// The statements of `f1`.
fn shown_body(alloc: Global, machine: &Machine) -> Result<Items<VStmt>, OutOfMemory>
    requires { IsMachine machine.now }
    ensures { IfOk result (λ body. body ≡ machines.shown_body machine.now) }
{
    let mut body = one(alloc, copied(alloc, b"v0", b"p0")?)?;
    let leaves = Shown { machine };
    body.append(code_decision(alloc, b"v0", machine.states.len(), &leaves)?)?;
    Ok(body)
}

/// `f1`: the output, from a state.
pub(crate) fn shown_function(alloc: Global, machine: &Machine) -> Result<Function, OutOfMemory>
    requires { IsMachine machine.now }
    ensures { IfOk result (λ f. f ≡ machines.shown_function machine.now) }
{
    let state = Ident::from_slice(alloc, b"p0")?;
    Ok(Function {
        name: Ident::from_slice(alloc, b"f1")?,
        params: one(alloc, state)?,
        vars: shown_variables(alloc, machine)?,
        body: shown_body(alloc, machine)?,
        result: name(alloc, b"v1")?,
    })
}
