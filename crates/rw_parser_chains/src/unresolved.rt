// Why a tree has no resolved form.

use rw_base::Failure;

/// A chain has no one tree, or the tree would have more than 512 levels.
#[derive(Clone, Copy, Debug, PartialEq, Eq)]
pub struct Broken;

/// Why nothing is made of a tree: there is none, or memory ran out.
pub type Unresolved = Failure<Broken>;
