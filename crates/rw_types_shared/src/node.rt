// A node of a type, whose parts are numbers of other nodes.
ghost use Rattle.std.specs.Prelude.{◌≡◌};
ghost use Rattle.std.specs.Cmp.{on_equiv, on_per, partial_equiv_from_equiv};
ghost use Rattle.rw_types_shared.specs.Shared.{shown};
ghost use Rattle.rw_types_shared.specs.Hashed.{same_node, number_of as number_of_head, hashed};
ghost use Rattle.rw_types_shared.specs.Same.{same_equiv, same_hashed};

use rw_types_solving::Head;
use std::hash::{Hash, Hasher};

/// A head, and the numbers of its parts.
#[derive(Drop)]
pub struct Node {
    pub head: Head,
    pub parts: Vec<u32>,
}

impl PartialEq for Node {
    ghost eq = { λ a b. same_node (shown a) (shown b) };

    ghost laws = { on_per (λ node. shown node) (partial_equiv_from_equiv same_equiv) };

    fn eq(&self, other: &Node) -> bool {
        self.head.is(other.head) && self.parts == other.parts
    }
}

impl Eq for Node {
    ghost laws = { on_equiv (λ node. shown node) same_equiv };
}

// A number by which most heads are told apart, for hashing.
fn number_of(head: Head) -> u32
    ensures { result ≡ number_of_head head }
{
    match head {
        Head::Data(n) => n,
        Head::Unknown(n) => n,
        Head::Tuple => 0,
        Head::Fun => 1,
        Head::Comp => 2,
        Head::I => 3,
        Head::Layer => 4,
        Head::StateT => 5,
        Head::ReT => 6,
    }
}

impl Hash for Node {
    ghost hash_input = { λ node. hashed (shown node) };

    ghost respects_eq = { λ a b e. same_hashed (shown a) (shown b) e };

    fn hash<H: Hasher>(&self, state: &mut H) {
        number_of(self.head).hash(state);
        self.parts.hash(state);
    }
}
