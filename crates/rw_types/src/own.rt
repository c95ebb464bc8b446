// The kinds of the variables of a declaration's own signature.
ghost use Rattle.std.specs.Prelude.{◌≡◌, IfOk, option_copied};
ghost use Rattle.rw_types_rules.specs.Schemes.{scheme_at};
ghost use Rattle.rw_types_rules.specs.Typings.{scheme_kinds};
ghost use Rattle.rw_types_equations.specs.Seen.{seen_option, seen_world};

use rw_base::OutOfMemory;
use rw_scope_rules::Binding;
use rw_types_equations::{Scheme, World, operation_scheme};
use rw_types_numbering::{constructed_at, declared_at};
use rw_types_rules::VariableKind;
use sqlite_items::Items;
use std::alloc::Global;

// The kinds of the variables of a scheme, if there is one.
fn kinds_of(alloc: Global, scheme: Option<&Scheme>) -> Result<Items<VariableKind>, OutOfMemory>
    ensures { IfOk result (λ made. made ≡ scheme_kinds (seen_option (option_copied scheme.entry))) }
{
    match scheme {
        Some(scheme) => Ok(Items::from_slice(alloc, scheme.kinds.as_slice())?),
        None => Ok(Items::new(alloc)),
    }
}

// The kinds of the variables of what a name is bound to.
pub fn kinds_at(
    alloc: Global,
    bound: Option<Binding>,
    world: &World,
) -> Result<Items<VariableKind>, OutOfMemory>
    ensures { IfOk result (λ made. made ≡ scheme_kinds (scheme_at (seen_world world.now) bound)) }
{
    match bound {
        Some(Binding::Declared(n)) => kinds_of(alloc, declared_at(world, n)),
        Some(Binding::Operation(operation)) => {
            let scheme = operation_scheme(alloc, operation)?;
            Ok(scheme.kinds)
        }
        Some(Binding::Constructor(n, place)) => kinds_of(alloc, constructed_at(world, n, place)),
        Some(Binding::Local(_)) => Ok(Items::new(alloc)),
        None => Ok(Items::new(alloc)),
    }
}
