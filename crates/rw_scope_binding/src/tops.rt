// The names at top level, and what a variable is bound to.
ghost use Rattle.std.specs.Prelude.{◌≡◌};
ghost use Rattle.rw_scope_rules.specs.Names.{first_named};
ghost use Rattle.rw_scope_rules.specs.Bindings.{local_or, local_number};
ghost use Rattle.rw_scope_binding.specs.Stack.{number_at};
ghost use Rattle.rw_scope_binding.specs.Own.{own};

use crate::locals::Locals;
use crate::table::Table;
use rw_base::Name;
use rw_scope_rules::Binding;

// What variables and operators, and what constructors are bound to at top level.
#[derive(Drop)]
pub struct Tops {
    pub variables: Table<Binding>,
    pub constructors: Table<Binding>,
}

// What a variable or an operator is bound to: a local name hides one at top level.
#[tactic(auto, using(crate::proofs::Forms::local_steps))]
pub fn variable_binding(tops: &Tops, scope: &Locals, name: &Name) -> Option<Binding>
    ensures { result ≡ local_or (local_number name.now scope.now) (first_named name.now tops.now.variables) }
{
    match scope.find(name) {
        Some(number) => Some(Binding::Local(number)),
        None => tops.variables.find(name),
    }
}

// What the name of a local signature is bound to: a name of its own group, whose names begin at the outer number.
pub fn own_binding(outer: u32, scope: &Locals, name: &Name) -> Option<Binding>
    ensures { result ≡ own outer (number_at name.now scope.now) }
{
    match scope.find(name) {
        Some(number) if number >= outer => Some(Binding::Local(number)),
        _ => None,
    }
}
