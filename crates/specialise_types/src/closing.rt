// The types of a declaration in an instance: each of its nodes is closed once, in the order of its table.
ghost use Rattle.std.specs.Prelude.{◌≡◌, ◌<◌, ◌≤◌, ℕ, IfOk, length, map, get_or};
ghost use Rattle.rw_types_solving.specs.Types.{app, tys};
ghost use Rattle.rw_types_rules.specs.Words.{unit_type};
ghost use Rattle.rw_types_rules.specs.WellTyped.{given};
ghost use Rattle.rw_types_shared.specs.Shared.{shown, type_at, AreBelow, IsProper, Extends};
ghost use Rattle.rw_types_instances.specs.Instances.{closed_by};
ghost use Rattle.specialise_types.specs.Closed.{AreClosed};

use rw_base::OutOfMemory;
use rw_types_shared::{Node, Types};
use rw_types_solving::Head;
use std::alloc::Global;

/// The number of the unit type.
pub fn unit(alloc: Global, types: &mut Types) -> Result<u32, OutOfMemory>
    requires { IsProper types.old }
    ensures proper { IfOk result (λ _. IsProper types.new) }
    ensures kept { IfOk result (λ _. Extends types.old types.new) }
    ensures within { IfOk result (λ n. n < length types.new) }
    ensures is { IfOk result (λ n. type_at types.new n ≡ unit_type) }
{
    let parts = Vec::new(alloc);
    let number = types.number(Node {
        head: Head::Tuple,
        parts,
    })?;
    Ok(number)
}

/// The number of the argument with this number, from 0, and of the unit type where there is none.
pub fn argument(
    alloc: Global,
    types: &mut Types,
    arguments: &[u32],
    k: u32,
) -> Result<u32, OutOfMemory>
    requires proper { IsProper types.old }
    requires arguments { AreBelow (length types.old) arguments.now }
    ensures proper { IfOk result (λ _. IsProper types.new) }
    ensures kept { IfOk result (λ _. Extends types.old types.new) }
    ensures within { IfOk result (λ n. n < length types.new) }
    ensures is { IfOk result (λ n. type_at types.new n ≡ given (map (type_at types.old) arguments.now) k) }
{
    match arguments.get(k as usize) {
        Some(number) => Ok(*number),
        None => unit(alloc, types),
    }
}

// The numbers of the parts of a node.
fn parts_at(alloc: Global, parts: &[u32], made: &[u32]) -> Result<Vec<u32>, OutOfMemory>
    requires { AreBelow (length made.now) parts.now }
    ensures { IfOk result (λ all. all.items ≡ map (λ k. get_or made.now k 0) parts.now) }
{
    let mut all = Vec::new(alloc);
    for part in parts {
        all.push(made[*part as usize])?;
    }
    Ok(all)
}

// The number of a node's type in the instance, where those of all earlier nodes are made.
fn closed_node(
    alloc: Global,
    types: &mut Types,
    nodes: &[Node],
    node: &Node,
    arguments: &[u32],
    made: &[u32],
) -> Result<u32, OutOfMemory>
    requires proper { IsProper types.old }
    requires own { IsProper (map shown nodes.now) }
    requires arguments { AreBelow (length types.old) arguments.now }
    requires made { AreClosed (map (type_at types.old) arguments.now) (map shown nodes.now) types.old made.now }
    requires parts { AreBelow (length made.now) (shown node.now).1 }
    ensures proper { IfOk result (λ _. IsProper types.new) }
    ensures kept { IfOk result (λ _. Extends types.old types.new) }
    ensures within { IfOk result (λ n. n < length types.new) }
    ensures is { IfOk result (λ n. type_at types.new n ≡ closed_by (map (type_at types.old) arguments.now) (app (shown node.now).0 (tys (map (type_at (map shown nodes.now)) (shown node.now).1)))) }
{
    match node.head {
        Head::Unknown(k) => argument(alloc, types, arguments, k),
        head => {
            let parts = parts_at(alloc, node.parts.as_slice(), made)?;
            let number = types.number(Node { head, parts })?;
            Ok(number)
        }
    }
}

/// For each node of a declaration's table of types, in order, the number of its type in the instance at these arguments: an
/// unknown type is the argument with its number, and the unit type where there is none. Types that are not there yet are added.
pub fn closed_nodes(
    alloc: Global,
    types: &mut Types,
    nodes: &[Node],
    arguments: &[u32],
) -> Result<Vec<u32>, OutOfMemory>
    requires proper { IsProper types.old }
    requires own { IsProper (map shown nodes.now) }
    requires arguments { AreBelow (length types.old) arguments.now }
    ensures proper { IfOk result (λ _. IsProper types.new) }
    ensures kept { IfOk result (λ _. Extends types.old types.new) }
    ensures many { IfOk result (λ made. length made.items ≡ length nodes.now) }
    ensures closed { IfOk result (λ made. AreClosed (map (type_at types.old) arguments.now) (map shown nodes.now) types.new made.items) }
{
    let mut made = Vec::new(alloc);
    for node in nodes {
        let number = closed_node(alloc, types, nodes, node, arguments, made.as_slice())?;
        made.push(number)?;
    }
    Ok(made)
}
