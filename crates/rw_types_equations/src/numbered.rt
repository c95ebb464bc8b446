// Numbered trees: each node has a variable of its own, and so has each argument of its instance.

use rw_scope_rules::Bound;

/// The annotation of a numbered node: what it was bound to, its number, and how many arguments its instance has. They
/// have the numbers after it.
#[derive(Clone, Copy, Debug, PartialEq, Eq)]
pub struct Numbered {
    pub node: Bound,
    pub number: u32,
    pub arguments: u32,
}
