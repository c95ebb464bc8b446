// Whole programs.

use crate::Decl;
use sqlite_items::Items;

/// A program: its declarations, in order.
#[derive(Drop)]
pub struct Program<A> {
    pub decls: Items<Decl<A>>,
}
