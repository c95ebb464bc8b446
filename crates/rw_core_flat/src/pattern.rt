// Patterns of the flat program (Haskell 2010 Report, section 3.17.2, on values that are there).

use sqlite_items::Items;

/// A pattern. Its variables are numbered by their order, from left to right.
#[derive(Drop)]
pub enum FPat {
    /// Anything.
    Any,
    /// Anything, under a variable.
    Bind,
    /// A constructor of the value's type, by its place, with a pattern for each field; a tuple has place 0.
    Con(u32, Items<FPat>),
}
