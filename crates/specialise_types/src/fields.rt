// The types of fields, whose variables are the parameters of a data type, at arguments.
ghost use Rattle.std.specs.Prelude.{◌≡◌, ◌<◌, IfOk, map, length};
ghost use Rattle.rw_types_solving.specs.Types.{plain, plains, apply};
ghost use Rattle.rw_types_rules.specs.WellTyped.{given};
ghost use Rattle.rw_types_shared.specs.Shared.{type_at, AreBelow, IsProper, Extends};

use crate::closing::argument;
use rw_base::OutOfMemory;
use rw_types_shared::{Node, Types};
use rw_types_solving::Term;
use std::alloc::Global;

/// The number of a type whose variable k is the k-th of these arguments, and the unit type where there is none.
#[cycle(closing)]
#[tactic(auto, using(rw_types_solving::proofs::Plains::plain_forms))]
pub fn field_type(
    alloc: Global,
    types: &mut Types,
    term: &Term,
    arguments: &[u32],
) -> Result<u32, OutOfMemory>
    requires proper { IsProper types.old }
    requires arguments { AreBelow (length types.old) arguments.now }
    ensures proper { IfOk result (λ _. IsProper types.new) }
    ensures kept { IfOk result (λ _. Extends types.old types.new) }
    ensures within { IfOk result (λ n. n < length types.new) }
    ensures is { IfOk result (λ n. type_at types.new n ≡ apply (given (map (type_at types.old) arguments.now)) (plain term.now)) }
{
    match term {
        Term::Var(x) => argument(alloc, types, arguments, *x),
        Term::App(head, parts) => {
            let parts = field_types(alloc, types, parts.as_slice(), arguments)?;
            let number = types.number(Node { head: *head, parts })?;
            Ok(number)
        }
    }
}

/// The numbers of such types.
#[cycle(closing)]
pub fn field_types(
    alloc: Global,
    types: &mut Types,
    terms: &[Term],
    arguments: &[u32],
) -> Result<Vec<u32>, OutOfMemory>
    requires proper { IsProper types.old }
    requires arguments { AreBelow (length types.old) arguments.now }
    ensures proper { IfOk result (λ _. IsProper types.new) }
    ensures kept { IfOk result (λ _. Extends types.old types.new) }
    ensures within { IfOk result (λ made. AreBelow (length types.new) made.items) }
    ensures are { IfOk result (λ made. map (type_at types.new) made.items ≡ map (apply (given (map (type_at types.old) arguments.now))) (plains terms.now)) }
{
    let mut all = Vec::new(alloc);
    for term in terms {
        let number = field_type(alloc, types, term, arguments)?;
        all.push(number)?;
    }
    Ok(all)
}
