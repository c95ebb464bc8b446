// What names are bound to, and the annotation that scoping leaves.

use rw_base::Span;

/// An operation of the language that no program declares: on monads, on state monads and on devices.
#[derive(Clone, Copy, Debug, PartialEq, Eq)]
pub enum Operation {
    /// `return`.
    Return,
    /// `>>=`.
    Bind,
    /// `>>`.
    Then,
    /// `get`.
    Get,
    /// `put`.
    Put,
    /// `lift`.
    Lift,
    /// `signal`.
    Signal,
    /// `extrude`.
    Extrude,
    /// `par`.
    Par,
    /// `refold`.
    Refold,
}

/// What a name is bound to.
#[derive(Clone, Copy, Debug, PartialEq, Eq)]
pub enum Binding {
    /// The function or variable of a declaration, by its number in the program, from 0.
    Declared(u32),
    /// An operation.
    Operation(Operation),
    /// A constructor, by the number of its data type's declaration and by its place there, both from 0.
    Constructor(u32, u32),
    /// A local name, by the number of its binder on the way to its place, from 0: variables of patterns from left
    /// to right, and the names of a let group in source order.
    Local(u32),
}

/// The annotation of a scoped node: its span, and what it binds or what its name is bound to. A node that names
/// nothing has none.
#[derive(Clone, Copy, Debug, PartialEq, Eq)]
pub struct Bound {
    pub span: Span,
    pub bound: Option<Binding>,
}
