// The kinds of the variables of a type.

/// What a variable of a signature stands for.
#[derive(Clone, Copy, Debug, PartialEq, Eq)]
pub enum VariableKind {
    /// A type.
    Plain,
    /// Any monad.
    Monad,
    /// A state monad: `I`, or `StateT s` over a state monad.
    StateMonad,
    /// A layer, `StateT s` or `ReT i o`: no signature can write one.
    Layer,
}
