// How many nodes types have, up to a limit: no more is looked at than the limit needs.
ghost use Rattle.std.specs.Prelude.{◌≡◌, min, map};
ghost use Rattle.std.specs.List.{sum_by};
ghost use Rattle.rw_types_solving.specs.Types.{nodes as nodes_of, own as own_nodes, is_known_layer as is_layer, tys};
ghost use Rattle.rw_types_solving.specs.declared.term.Head.TheVariants as h;
ghost use Rattle.rw_types_shared.specs.Shared.{shown, type_at, IsProper};

use rw_types_shared::Node;
use rw_types_solving::Head;

// Whether the type is `StateT s` or `ReT i o`.
fn is_known_layer(nodes: &[Node], n: u32) -> bool
    requires { IsProper (map shown nodes.now) }
    ensures { result ≡ is_layer (type_at (map shown nodes.now) n) }
{
    match nodes.get(n as usize) {
        Some(node) => match node.head {
            Head::StateT => node.parts.as_slice().len() == 1,
            Head::ReT => node.parts.as_slice().len() == 2,
            _ => false,
        },
        None => false,
    }
}

// How many nodes a layer over a monad is beside them: a known layer and the monad under it are one together.
fn own_of_layer(nodes: &[Node], parts: &[u32]) -> u32
    requires { IsProper (map shown nodes.now) }
    ensures { result ≡ own_nodes h.Layer (tys (map (type_at (map shown nodes.now)) parts.now)) }
{
    if parts.len() == 2 && is_known_layer(nodes, parts[0]) {
        0
    } else {
        1
    }
}

// How many nodes a head is beside its parts.
fn own(nodes: &[Node], node: &Node) -> u32
    requires { IsProper (map shown nodes.now) }
    ensures { result ≡ own_nodes (shown node.now).0 (tys (map (type_at (map shown nodes.now)) (shown node.now).1)) }
{
    match node.head {
        Head::Layer => own_of_layer(nodes, node.parts.as_slice()),
        _ => 1,
    }
}

/// How many nodes the type with this number has, at most the limit.
#[cycle(counting)]
pub fn count(nodes: &[Node], n: u32, limit: u32) -> u32
    requires { IsProper (map shown nodes.now) }
    ensures { result ≡ min limit (nodes_of (type_at (map shown nodes.now) n)) }
{
    if limit == 0 {
        return 0;
    }
    let Some(node) = nodes.get(n as usize) else {
        return 1;
    };
    let mut sum = limit.min(own(nodes, node));
    for part in node.parts.as_slice() {
        sum += count(nodes, *part, limit - sum);
    }
    sum
}

/// How many nodes the types with these numbers have together, at most the limit.
pub fn count_all(nodes: &[Node], numbers: &[u32], limit: u32) -> u32
    requires { IsProper (map shown nodes.now) }
    ensures { result ≡ min limit (sum_by nodes_of (map (type_at (map shown nodes.now)) numbers.now)) }
{
    let mut sum = 0;
    for n in numbers {
        sum += count(nodes, *n, limit - sum);
    }
    sum
}
