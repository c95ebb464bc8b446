// Whether a type has a variable.
ghost use Rattle.std.specs.Prelude.{◌≡◌, not};
ghost use Rattle.rw_tree.specs.Types.{written, writtens, type_parts};
ghost use Rattle.rw_scope_rules.specs.Scope.{type_variables, types_variables};
ghost use Rattle.rw_scope_rules.specs.Kinds.{has_none};

use rw_tree::Written;

#[cycle(variables)]
pub fn has_variable(ty: &Written) -> bool
    ensures { result ≡ not (has_none (type_variables (written ty.now))) }
{
    match ty {
        Written::Var(_) => true,
        Written::Con(_) => false,
        Written::Apply(head, parts) => has_variable(head.get()) || any_has(parts.as_slice()),
        Written::Fun(from, to) => has_variable(from.get()) || has_variable(to.get()),
        Written::Tuple(parts) => any_has(parts.as_slice()),
    }
}

#[cycle(variables)]
fn any_has(types: &[Written]) -> bool
    ensures { result ≡ not (has_none (types_variables (type_parts (writtens types.now)))) }
{
    for ty in types {
        if has_variable(ty) {
            return true;
        }
    }
    false
}
