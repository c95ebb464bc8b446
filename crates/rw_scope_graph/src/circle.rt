// Nodes on a circle, each by a search from it. Only those that can't be put into an order are searched from.
ghost use Rattle.std.specs.Prelude.{◌≡◌, ◌∷◌, ◌++◌, ◌<◌, [], false, length, IfOk, OnOk};
ghost use Rattle.rw_scope_graph.specs.Waiting.{IsGreatestStuck};
ghost use Rattle.rw_scope_graph.specs.Circles.{MarksCircles, is_circular};
ghost use Rattle.rw_scope_graph.specs.Meeting.{IsMeeting, meeting_work};

use crate::search::{State, state_of, stuck, unknown};
use rw_base::OutOfMemory;
use sqlite_items::Items;
use std::alloc::Global;

// Meets a node that was left to be met: what it waits for is left instead, if it is met for the first time.
fn meet(
    graph: &[Items<u32>],
    states: &mut Vec<State>,
    left: &mut Vec<u32>,
    node: usize,
    next: u32,
) -> Result<(), OutOfMemory>
    requires meeting { IsMeeting graph.now node states.old.items (left.old.items ++ next ∷ []) }
    requires other { next ≡ node → ⊥ }
    ensures meeting { OnOk result (IsMeeting graph.now node states.new.items left.new.items) }
    ensures less { OnOk result (meeting_work graph.now states.new.items left.new.items < meeting_work graph.now states.old.items (left.old.items ++ next ∷ [])) }
{
    let next = next as usize;
    match state_of(states.as_slice(), next) {
        State::New => {
            states[next] = State::Held;
            left.extend_from_slice(graph[next].as_slice())?;
            Ok(())
        }
        State::Held => Ok(()),
        State::Free => Ok(()),
    }
}

// Whether a search from a node comes back to it.
fn leads_back(alloc: Global, graph: &[Items<u32>], node: usize) -> Result<bool, OutOfMemory>
    requires { node < length graph.now }
    ensures { IfOk result (λ back. back ≡ is_circular graph.now node) }
{
    let mut states = unknown(alloc, graph)?;
    let mut left = Vec::new(alloc);
    left.extend_from_slice(graph[node].as_slice())?;
    while let Some(next) = left.pop() {
        if next as usize == node {
            return Ok(true);
        }
        meet(graph, &mut states, &mut left, node, next)?;
    }
    Ok(false)
}

// The same, once it is known which nodes can't be put into an order.
fn is_on_circle(
    alloc: Global,
    graph: &[Items<u32>],
    held: &[bool],
    node: usize,
) -> Result<bool, OutOfMemory>
    requires within { node < length graph.now }
    requires held { IsGreatestStuck graph.now held.now }
    ensures { IfOk result (λ back. back ≡ is_circular graph.now node) }
{
    if held[node] {
        leads_back(alloc, graph, node)
    } else {
        Ok(false)
    }
}

/// Which nodes of a graph lead back to themselves, by way of what they wait for: node `i` waits for the nodes whose numbers,
/// from 0, stand in `graph[i]`; a number without a node leads nowhere. Where no node does, it takes time in proportion to
/// the graph, and otherwise that for each node that leads to a circle.
pub fn circular(alloc: Global, graph: &[Items<u32>]) -> Result<Vec<bool>, OutOfMemory>
    ensures { IfOk result (λ marks. MarksCircles graph.now marks.items) }
{
    let held = stuck(alloc, graph)?;
    let mut marks = Vec::new(alloc);
    for node in 0..graph.len() {
        marks.push(is_on_circle(alloc, graph, held.as_slice(), node)?)?;
    }
    Ok(marks)
}
