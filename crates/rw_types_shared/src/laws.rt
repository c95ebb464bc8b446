// Laws of tables of nodes: each is the contract of a function that does nothing.
ghost use Rattle.std.specs.Prelude.{◌≡◌, ◌↔◌, ◌<◌, ℕ, List, map, length};
ghost use Rattle.rw_types_solving.specs.Types.{app, tys};
ghost use Rattle.rw_types_shared.specs.Shared.{Node as PlainNode, node_at, type_at, IsProper};

/// In a proper table two types are the same exactly where their numbers are.
pub fn types_as_numbers()
    ensures { (nodes : List PlainNode) → IsProper nodes → (m n : ℕ) → m < length nodes → n < length nodes → (type_at nodes m ≡ type_at nodes n) ↔ (m ≡ n) }
{}

/// In a proper table a number is the type of its node's head, with the types of the node's parts.
pub fn types_in_nodes()
    ensures { (nodes : List PlainNode) → IsProper nodes → (n : ℕ) → type_at nodes n ≡ app (node_at nodes n).0 (tys (map (type_at nodes) (node_at nodes n).1)) }
{}
