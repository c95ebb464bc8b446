// Types as a source writes them, and their kinds.

use rw_base::Name;
use sqlite_items::{Boxed, Items};

/// A type as a source writes it (Haskell 2010 Report, section 4.1.2). A context is not kept.
#[derive(Drop)]
pub enum Written {
    /// A type variable.
    Var(Name),
    /// A type constructor.
    Con(Name),
    /// A type and its arguments, at least one.
    Apply(Boxed<Written>, Items<Written>),
    /// `from -> to`.
    Fun(Boxed<Written>, Boxed<Written>),
    /// `( a , b )`: two parts or more. The unit type is a tuple of none.
    Tuple(Items<Written>),
}

/// What a type variable stands for. Every state monad is a monad.
#[derive(Clone, Copy, Debug, PartialEq, Eq)]
pub enum Kind {
    /// A type.
    Plain,
    /// A state monad.
    StateMonad,
    /// A monad.
    Monad,
}
