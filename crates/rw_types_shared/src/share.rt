// Types with variables, as numbers of shared nodes.
ghost use Rattle.std.specs.Prelude.{◌≡◌, ◌<◌, IfOk, map, length};
ghost use Rattle.rw_types_solving.specs.Types.{plain, plains, apply, app, none};
ghost use Rattle.rw_types_solving.specs.Closing.{sort_of as sort_of_variable, closed_as};
ghost use Rattle.rw_types_rules.specs.Typings.{leftover};
ghost use Rattle.rw_types_shared.specs.Shared.{type_at, AreBelow, IsProper, Extends};

use crate::{Node, Types};
use rw_base::OutOfMemory;
use rw_types_solving::{Head, Sort, Term};
use std::alloc::Global;

// What a variable is.
fn sort_of(sorts: &[Sort], x: u32) -> Sort
    ensures { result ≡ sort_of_variable sorts.now x }
{
    match sorts.get(x as usize) {
        Some(sort) => *sort,
        None => Sort::Plain,
    }
}

// The type of a head alone.
fn share_alone(alloc: Global, types: &mut Types, head: Head) -> Result<u32, OutOfMemory>
    requires { IsProper types.old }
    ensures proper { IfOk result (λ _. IsProper types.new) }
    ensures kept { IfOk result (λ _. Extends types.old types.new) }
    ensures within { IfOk result (λ n. n < length types.new) }
    ensures is { IfOk result (λ n. type_at types.new n ≡ app head none) }
{
    let parts = Vec::new(alloc);
    let number = types.number(Node { head, parts })?;
    Ok(number)
}

// What a leftover variable of this sort is.
fn share_default(alloc: Global, types: &mut Types, sort: Sort) -> Result<u32, OutOfMemory>
    requires { IsProper types.old }
    ensures proper { IfOk result (λ _. IsProper types.new) }
    ensures kept { IfOk result (λ _. Extends types.old types.new) }
    ensures within { IfOk result (λ n. n < length types.new) }
    ensures is { IfOk result (λ n. type_at types.new n ≡ closed_as sort) }
{
    match sort {
        Sort::Plain => share_alone(alloc, types, Head::Tuple),
        Sort::Monad => share_alone(alloc, types, Head::I),
        Sort::Layer => {
            let unit = share_alone(alloc, types, Head::Tuple)?;
            let mut parts = Vec::new(alloc);
            parts.push(unit)?;
            let number = types.number(Node {
                head: Head::StateT,
                parts,
            })?;
            Ok(number)
        }
    }
}

// The number of a type, with its variables closed by their sorts.
#[cycle(sharing)]
#[tactic(auto, using(rw_types_solving::proofs::Plains::plain_forms))]
fn share(alloc: Global, types: &mut Types, term: &Term, sorts: &[Sort]) -> Result<u32, OutOfMemory>
    requires { IsProper types.old }
    ensures proper { IfOk result (λ _. IsProper types.new) }
    ensures kept { IfOk result (λ _. Extends types.old types.new) }
    ensures within { IfOk result (λ n. n < length types.new) }
    ensures is { IfOk result (λ n. type_at types.new n ≡ apply (leftover (sort_of_variable sorts.now)) (plain term.now)) }
{
    match term {
        Term::Var(x) => share_default(alloc, types, sort_of(sorts, *x)),
        Term::App(head, parts) => {
            let parts = share_all(alloc, types, parts.as_slice(), sorts)?;
            let number = types.number(Node { head: *head, parts })?;
            Ok(number)
        }
    }
}

/// The numbers of types, with their variables closed by their sorts: `()` for a type, `I` for a monad, `StateT ()` for a layer. A
/// variable that has no sort is a type. Nodes that are not there yet are added.
#[cycle(sharing)]
pub fn share_all(
    alloc: Global,
    types: &mut Types,
    terms: &[Term],
    sorts: &[Sort],
) -> Result<Vec<u32>, OutOfMemory>
    requires { IsProper types.old }
    ensures proper { IfOk result (λ _. IsProper types.new) }
    ensures kept { IfOk result (λ _. Extends types.old types.new) }
    ensures within { IfOk result (λ made. AreBelow (length types.new) made.items) }
    ensures are { IfOk result (λ made. map (type_at types.new) made.items ≡ map (apply (leftover (sort_of_variable sorts.now))) (plains terms.now)) }
{
    let mut all = Vec::new(alloc);
    for term in terms {
        let number = share(alloc, types, term, sorts)?;
        all.push(number)?;
    }
    Ok(all)
}
