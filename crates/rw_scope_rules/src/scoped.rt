// Scoped programs.

use crate::Bound;
use rw_tree::Program;

/// A program of whose names each is bound. The call that makes one promises that it begins with the prelude's
/// declarations and that E06 to E12 hold.
#[derive(Drop)]
pub struct Scoped {
    pub program: Program<Bound>,
}
