// Tables of nodes, each of which stands once. Contracts see the list of nodes, in the order in which they were added.
ghost use Rattle.std.specs.Prelude.{◌≡◌, ◌<◌, [], map, length, IfOk, slice_get};
ghost use Rattle.std.specs.Option.{option_copied, option_map};
ghost use Rattle.rw_types_shared.specs.Shared.{shown, node_at, AreBelow, IsProper, Extends};

use crate::Node;
use indexmap::IndexSet;
use rw_base::OutOfMemory;
use std::alloc::Global;
use std::marker::Model;

/// Nodes, each once; a type is the number of its node, from 0.
#[derive(Drop)]
pub struct Types {
    nodes: IndexSet<Node>,
}

impl Model for Types {
    ghost use Rattle.std.specs.Prelude.{List, ℕ, map};
    ghost use Rattle.rw_types_solving.specs.declared.term.Head.{Head};
    ghost use Rattle.rw_types_shared.specs.Shared.{shown};

    ghost Value = { List (Head × List ℕ) };

    ghost view = { λ types. map shown types.nodes.keys };
}

impl Types {
    /// No node.
    pub fn new(alloc: Global) -> Types
        ensures none { result ≡ [] }
        ensures proper { IsProper result }
    {
        Types {
            nodes: IndexSet::new(alloc),
        }
    }

    /// How many nodes there are.
    pub fn len(&self) -> usize
        ensures { result ≡ length self.now }
    {
        self.nodes.len()
    }

    /// The nodes, by number.
    pub fn as_slice(&self) -> &[Node]
        ensures { map shown result.now ≡ self.now }
    {
        self.nodes.as_slice()
    }

    /// The number of the node, which is added where it is new. Numbers have 32 bits: more are want of memory.
    pub fn number(&mut self, node: Node) -> Result<u32, OutOfMemory>
        requires proper { IsProper self.old }
        requires earlier { AreBelow (length self.old) (shown node).1 }
        ensures proper { IfOk result (λ _. IsProper self.new) }
        ensures kept { IfOk result (λ _. Extends self.old self.new) }
        ensures within { IfOk result (λ n. n < length self.new) }
        ensures at { IfOk result (λ n. node_at self.new n ≡ shown node) }
    {
        let (n, _) = self.nodes.insert_full(node)?;
        if n > u32::MAX as usize {
            return Err(OutOfMemory);
        }
        Ok(n as u32)
    }
}
