// Annotations that tell what the name at their node is bound to.
ghost use Rattle.std.specs.Prelude.{◌≡◌, Option};
ghost use Rattle.rw_scope_rules.specs.declared.binding.Binding as binding_type;

use rw_scope_rules::{Binding, Bound};
use rw_types_equations::Numbered;

/// The annotation of a tree whose names are bound.
pub trait Binds {
    /// What the name at its node is bound to, if anything.
    ghost bound: { Self → Option binding_type.Binding };

    /// The same.
    fn binding(&self) -> Option<Binding>
        ensures { result ≡ bound self.now };
}

impl Binds for Bound {
    ghost bound = { λ a. a.bound };

    fn binding(&self) -> Option<Binding> {
        self.bound
    }
}

/// The annotation of a typed tree: a part of its `start` keeps the numbers at its nodes.
impl Binds for Numbered {
    ghost bound = { λ a. a.node.bound };

    fn binding(&self) -> Option<Binding> {
        self.node.bound
    }
}
