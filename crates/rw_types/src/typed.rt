// Typed declarations.

use rw_tree::Decl;
use rw_types_equations::Numbered;
use rw_types_shared::Types;
use sqlite_items::Items;

/// A declaration whose nodes have numbers, a table of types, each of which stands once, and for each of the numbers which of the
/// table's types it has. No type has variables.
#[derive(Drop)]
pub struct TypedDecl {
    pub tree: Decl<Numbered>,
    pub nodes: Types,
    pub types: Items<u32>,
}
