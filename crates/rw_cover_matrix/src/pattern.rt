// The patterns of a matrix.

use sqlite_items::Items;

/// A pattern, as far as coverage sees it: names and types are gone.
#[derive(Drop)]
pub enum Pattern {
    /// A variable or `_`, which matches everything.
    Any,
    /// A constructor: its place among the constructors of its type, from 0, how many these are, and a pattern for each
    /// of its fields. A tuple is the one constructor of its type.
    Con(usize, usize, Items<Pattern>),
}
