// The nodes that can't be put into an order, by a search in depth: a node is free once all that it waits for are free, and
// a search that comes to a node that is held has come to a circle, or to a node that leads to one.
ghost use Rattle.std.specs.Prelude.{◌≡◌, ◌∷◌, [], ◌+◌, ◌^◌, ◌<◌, ℕ, false, IfOk, OnOk, OnSome, length, map};
ghost use Rattle.rw_scope_graph.specs.declared.search.State.TheVariants.{New};
ghost use Rattle.rw_scope_graph.specs.Waiting.{IsGreatestStuck};
ghost use Rattle.rw_scope_graph.specs.Search.{IsSearched, IsKept, is_held as held, new_at, state_at, wanted_by, work_of};

use crate::stack::{Frame, Stack};
use rw_base::OutOfMemory;
use sqlite_items::Items;
use std::alloc::Global;

// What is known of a node: nothing; that its search is under way or has come to a circle; that it is free.
#[derive(Clone, Copy)]
pub enum State {
    New,
    Held,
    Free,
}

// What is known of the node with this number. A number without a node is free.
pub fn state_of(states: &[State], node: usize) -> State
    ensures { result ≡ state_at states.now node }
{
    match states.get(node) {
        Some(state) => *state,
        None => State::Free,
    }
}

// Whether a node leads to a circle, where no search is under way.
fn is_held(state: State) -> bool
    ensures { result ≡ held state }
{
    match state {
        State::Held => true,
        _ => false,
    }
}

// The next node that a frame's node waits for.
fn wanted(graph: &[Items<u32>], frame: Frame) -> Option<u32>
    ensures wanted { result ≡ wanted_by graph.now frame }
    ensures counted { OnSome result (frame.done + 1 < 2 ^ 64) }
{
    match graph.get(frame.node) {
        Some(row) => row.as_slice().get(frame.done).copied(),
        None => None,
    }
}

// Goes on with the search of a node, which was taken from the stack.
fn step(
    graph: &[Items<u32>],
    states: &mut [State],
    stack: &mut Stack,
    frame: Frame,
) -> Result<(), OutOfMemory>
    requires { IsSearched graph.now states.old (frame ∷ stack.old) }
    ensures searched { OnOk result (IsSearched graph.now states.new stack.new) }
    ensures kept { OnOk result (IsKept states.old states.new) }
    ensures less { OnOk result (work_of graph.now states.new stack.new < work_of graph.now states.old (frame ∷ stack.old)) }
{
    let Frame { node, done } = frame;
    match wanted(graph, frame) {
        None => states[node] = State::Free,
        Some(next) => {
            let next = next as usize;
            match state_of(states, next) {
                State::Free => stack.push(Frame {
                    node,
                    done: done + 1,
                })?,
                State::Held => stack.clear(),
                State::New => {
                    stack.push(frame)?;
                    states[next] = State::Held;
                    stack.push(Frame {
                        node: next,
                        done: 0,
                    })?;
                }
            }
        }
    }
    Ok(())
}

// Searches from a node, if nothing is known of it.
fn search(
    graph: &[Items<u32>],
    states: &mut [State],
    stack: &mut Stack,
    node: usize,
) -> Result<(), OutOfMemory>
    requires within { node < length graph.now }
    requires searched { IsSearched graph.now states.old [] }
    requires empty { stack.old ≡ [] }
    ensures searched { OnOk result (IsSearched graph.now states.new []) }
    ensures empty { OnOk result (stack.new ≡ []) }
    ensures kept { OnOk result (IsKept states.old states.new) }
    ensures known { OnOk result (new_at states.new node ≡ false) }
{
    match state_of(states, node) {
        State::New => {}
        _ => return Ok(()),
    }
    states[node] = State::Held;
    stack.push(Frame { node, done: 0 })?;
    while let Some(frame) = stack.pop() {
        step(graph, states, stack, frame)?;
    }
    Ok(())
}

// Nothing is known of the nodes.
pub fn unknown(alloc: Global, graph: &[Items<u32>]) -> Result<Vec<State>, OutOfMemory>
    ensures { IfOk result (λ states. states.items ≡ map (λ row. New) graph.now) }
{
    let mut states = Vec::new(alloc);
    for _row in graph {
        states.push(State::New)?;
    }
    Ok(states)
}

/// Which nodes of a graph can't be put into an order in which each comes after all that it waits for: node `i` waits for
/// the nodes whose numbers, from 0, stand in `graph[i]`. Those nodes are marked that wait for a marked one; of all ways
/// to mark nodes so it is the one with the most. A number without a node is waited for in vain, which holds up no node.
/// It takes time in proportion to the graph.
pub fn stuck(alloc: Global, graph: &[Items<u32>]) -> Result<Vec<bool>, OutOfMemory>
    ensures { IfOk result (λ marks. IsGreatestStuck graph.now marks.items) }
{
    let mut states = unknown(alloc, graph)?;
    let mut stack = Stack::new(alloc);
    for node in 0..graph.len() {
        search(graph, states.as_mut_slice(), &mut stack, node)?;
    }
    let mut marks = Vec::new(alloc);
    for state in &states {
        marks.push(is_held(*state))?;
    }
    Ok(marks)
}
