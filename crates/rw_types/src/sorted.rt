// Whether types are of their sorts.
ghost use Rattle.std.specs.Prelude.{◌≡◌, ◌↔◌, ℕ, ◌<◌, IsTrue, length, option_copied};
ghost use Rattle.rw_types_solving.specs.Types.{plain, plains, tys, meaning};
ghost use Rattle.rw_types_solving.specs.Sorts.{head_sort as sort_of_head, part_sort as sort_of_part, HasSort};
ghost use Rattle.rw_types_solving.specs.Closing.{sort_of};
ghost use Rattle.rw_types_rules.specs.Typings.{kind_sort as sort_of_kind, unknown_sorts, as_many_kinds, arity_of, heads_of};
ghost use Rattle.rw_types_equations.specs.Seen.{seen_option, seen_world};
ghost use Rattle.rw_types.specs.Testing.{same_sort, is_arity, fits as fits_head, has_sort, has_sorts};

use rw_types_equations::{Scheme, World};
use rw_types_numbering::constructed_at;
use rw_types_rules::VariableKind;
use rw_types_solving::{Head, Sort, Term};

// Whether the two are the same.
fn same(one: Sort, other: Sort) -> bool
    ensures { result ≡ same_sort one other }
{
    match (one, other) {
        (Sort::Plain, Sort::Plain) => true,
        (Sort::Monad, Sort::Monad) => true,
        (Sort::Layer, Sort::Layer) => true,
        _ => false,
    }
}

// What a variable of this kind is.
fn kind_sort(kind: VariableKind) -> Sort
    ensures { result ≡ sort_of_kind kind }
{
    match kind {
        VariableKind::Plain => Sort::Plain,
        VariableKind::Monad => Sort::Monad,
        VariableKind::StateMonad => Sort::Monad,
        VariableKind::Layer => Sort::Layer,
    }
}

// What an unknown type is.
fn unknown_sort(own: &[VariableKind], n: u32) -> Sort
    ensures { result ≡ unknown_sorts own.now n }
{
    match own.get(n as usize) {
        Some(kind) => kind_sort(*kind),
        None => Sort::Plain,
    }
}

// What a variable is.
fn variable_sort(sorts: &[Sort], x: usize) -> Sort
    ensures { result ≡ sort_of sorts.now x }
{
    match sorts.get(x) {
        Some(sort) => *sort,
        None => Sort::Plain,
    }
}

// What a type of this head is.
fn head_sort(head: Head, own: &[VariableKind], world: &World) -> Sort
    ensures { result ≡ sort_of_head (heads_of (seen_world world.now) own.now) head }
{
    match head {
        Head::I => Sort::Monad,
        Head::Layer => Sort::Monad,
        Head::StateT => Sort::Layer,
        Head::ReT => Sort::Layer,
        Head::Unknown(n) => unknown_sort(own, n),
        _ => Sort::Plain,
    }
}

// What the part with this number is.
fn part_sort(head: Head, part: usize) -> Sort
    ensures { result ≡ sort_of_part head part }
{
    match head {
        Head::Comp if part == 0 => Sort::Monad,
        Head::Layer if part == 0 => Sort::Layer,
        Head::Layer => Sort::Monad,
        _ => Sort::Plain,
    }
}

// Whether a scheme, if there is one, has so many variables.
fn has_kinds(scheme: Option<&Scheme>, count: usize) -> bool
    ensures { result ≡ is_arity (as_many_kinds (seen_option (option_copied scheme.entry))) count }
{
    match scheme {
        Some(scheme) => scheme.kinds.len() == count,
        None => false,
    }
}

// Whether the data type with this number has so many parts: its first constructor has a variable for each.
fn has_arity(n: u32, parts: usize, world: &World) -> bool
    ensures { result ≡ is_arity (arity_of (seen_world world.now) n) parts }
{
    has_kinds(constructed_at(world, n, 0), parts)
}

// Whether a head may have so many parts.
fn fits(head: Head, parts: usize, own: &[VariableKind], world: &World) -> bool
    ensures { result ≡ fits_head (heads_of (seen_world world.now) own.now) head parts }
{
    match head {
        Head::Fun => parts == 2,
        Head::Data(n) => has_arity(n, parts, world),
        Head::Comp => parts == 2,
        Head::I => parts == 0,
        Head::Layer => parts == 2,
        Head::StateT => parts == 1,
        Head::ReT => parts == 2,
        Head::Unknown(_) => parts == 0,
        _ => true,
    }
}

// Whether the type is of this sort.
#[cycle(sorting)]
#[tactic(auto, using(rw_types_solving::proofs::Plains::plain_forms))]
fn is_sorted(term: &Term, sort: Sort, sorts: &[Sort], own: &[VariableKind], world: &World) -> bool
    ensures { result ≡ has_sort (sort_of sorts.now) (heads_of (seen_world world.now) own.now) sort (plain term.now) }
{
    match term {
        Term::Var(x) => same(variable_sort(sorts, *x as usize), sort),
        Term::App(head, parts) => {
            same(head_sort(*head, own, world), sort)
                && are_sorted(*head, parts.as_slice(), sorts, own, world)
        }
    }
}

// Whether these are the parts of the head, each of its sort.
#[cycle(sorting)]
fn are_sorted(
    head: Head,
    parts: &[Term],
    sorts: &[Sort],
    own: &[VariableKind],
    world: &World,
) -> bool
    ensures { result ≡ has_sorts (sort_of sorts.now) (heads_of (seen_world world.now) own.now) head 0 (tys (plains parts.now)) }
{
    for (i, part) in parts.iter().enumerate() {
        if !is_sorted(part, part_sort(head, i), sorts, own, world) {
            return false;
        }
    }
    fits(head, parts.len(), own, world)
}

/// Whether the type is of this sort, where its variables are of these, by number, and the variables of the own signature
/// are of these kinds, and each data type has as many parts as its declaration has parameters. A variable that has none is a type.
pub fn is_of_sort(
    term: &Term,
    sort: Sort,
    sorts: &[Sort],
    own: &[VariableKind],
    world: &World,
) -> bool
    ensures { IsTrue result ↔ HasSort (sort_of sorts.now) (heads_of (seen_world world.now) own.now) sort (plain term.now) }
{
    is_sorted(term, sort, sorts, own, world)
}

/// Whether each variable stands for a type of its sort: the types and the sorts are by the numbers of the variables.
pub fn all_sorted(terms: &[Term], sorts: &[Sort], own: &[VariableKind], world: &World) -> bool
    ensures { IsTrue result ↔ ((x : ℕ) → x < length terms.now → HasSort (sort_of sorts.now) (heads_of (seen_world world.now) own.now) (sort_of sorts.now x) (meaning terms.now x)) }
{
    for (i, term) in terms.iter().enumerate() {
        if !is_of_sort(term, variable_sort(sorts, i), sorts, own, world) {
            return false;
        }
    }
    true
}
