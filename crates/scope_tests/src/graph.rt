// Marks of small graphs, with ample memory.

use rw_base::OutOfMemory;
use rw_scope_graph::{circular, stuck};
use sqlite_items::Items;
use std::alloc::Global;

/// What one node waits for.
fn row(alloc: Global, nodes: &[u32]) -> Result<Items<u32>, OutOfMemory> {
    Ok(Items::from_slice(alloc, nodes)?)
}

/// Node 0 waits for node 1, and node 1 for the node with this number and for node 2, which waits for nothing.
fn small(alloc: Global, node: u32) -> Result<Items<Items<u32>>, OutOfMemory> {
    let mut graph = Items::new(alloc);
    graph.push(row(alloc, &[1])?)?;
    graph.push(row(alloc, &[2, node])?)?;
    graph.push(row(alloc, &[])?)?;
    Ok(graph)
}

#[test]
fn what_leads_to_a_circle_is_stuck(rt: HostRuntime) -> Result<(), OutOfMemory> {
    let graph = small(rt.alloc(), 1)?;
    let marks = stuck(rt.alloc(), graph.as_slice())?;
    assert_eq!(rt; marks.as_slice(), [true, true, false].as_slice());
    Ok(())
}

#[test]
fn what_waits_for_no_node_is_free(rt: HostRuntime) -> Result<(), OutOfMemory> {
    let graph = small(rt.alloc(), 7)?;
    let marks = stuck(rt.alloc(), graph.as_slice())?;
    assert_eq!(rt; marks.as_slice(), [false, false, false].as_slice());
    Ok(())
}

#[test]
fn only_what_leads_back_to_itself_is_on_a_circle(rt: HostRuntime) -> Result<(), OutOfMemory> {
    let graph = small(rt.alloc(), 1)?;
    let marks = circular(rt.alloc(), graph.as_slice())?;
    assert_eq!(rt; marks.as_slice(), [false, true, false].as_slice());
    Ok(())
}
