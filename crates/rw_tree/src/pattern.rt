// The patterns of a source (Haskell 2010 Report, section 3.17, in this project's profile).

use rw_base::Name;
use sqlite_items::Items;

/// A pattern. Each node has an annotation.
#[derive(Drop)]
pub enum Pat<A> {
    /// `_`, which matches everything.
    Wild(A),
    /// A variable, which matches everything and is bound to it.
    Var(A, Name),
    /// A constructor and a pattern for each of its fields.
    Con(A, Name, Items<Pat<A>>),
    /// `( p , q )`: two parts or more. Unit, `( )`, is a tuple of none.
    Tuple(A, Items<Pat<A>>),
}
