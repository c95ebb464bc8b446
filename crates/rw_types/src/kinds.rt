// The sorts of numbers by their kinds, and which unknown types are state monads.
ghost use Rattle.std.specs.Prelude.{◌≡◌, IfOk, map};
ghost use Rattle.rw_types_rules.specs.Typings.{kind_sort as sort_of_kind, is_state_kind};
ghost use Rattle.rw_types.specs.Inside.{kind_at};

use rw_base::OutOfMemory;
use rw_types_rules::VariableKind;
use rw_types_solving::Sort;
use sqlite_items::Items;
use std::alloc::Global;

// What stands for a variable of this kind.
fn kind_sort(kind: VariableKind) -> Sort
    ensures { result ≡ sort_of_kind kind }
{
    match kind {
        VariableKind::Plain => Sort::Plain,
        VariableKind::Monad => Sort::Monad,
        VariableKind::StateMonad => Sort::Monad,
        VariableKind::Layer => Sort::Layer,
    }
}

// Whether it has to be a state monad.
fn is_state(kind: VariableKind) -> bool
    ensures { result ≡ is_state_kind kind }
{
    match kind {
        VariableKind::StateMonad => true,
        _ => false,
    }
}

// Whether the number has to stand for a state monad.
pub fn is_state_at(kinds: &[VariableKind], at: usize) -> bool
    ensures { result ≡ is_state_kind (kind_at kinds.now at) }
{
    match kinds.get(at) {
        Some(kind) => is_state(*kind),
        None => false,
    }
}

// The sort of each kind.
pub fn sorts_of(alloc: Global, kinds: &[VariableKind]) -> Result<Items<Sort>, OutOfMemory>
    ensures { IfOk result (λ made. made ≡ map sort_of_kind kinds.now) }
{
    let mut all = Items::new(alloc);
    for kind in kinds {
        all.push(kind_sort(*kind))?;
    }
    Ok(all)
}

// Which of these kinds are state monads.
pub fn states_of(alloc: Global, kinds: &[VariableKind]) -> Result<Items<bool>, OutOfMemory>
    ensures { IfOk result (λ made. made ≡ map is_state_kind kinds.now) }
{
    let mut all = Items::new(alloc);
    for kind in kinds {
        all.push(is_state(*kind))?;
    }
    Ok(all)
}
