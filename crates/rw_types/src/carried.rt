// Whether types are what the kinds of their numbers want.
ghost use Rattle.std.specs.Prelude.{◌≡◌, ◌↔◌, ◌<◌, ℕ, IfOk, IsTrue, true, length};
ghost use Rattle.rw_types_solving.specs.Types.{meaning};
ghost use Rattle.rw_types_solving.specs.Conditions.{is_state_monad as is_state_monad_type, any, listed};
ghost use Rattle.rw_types_rules.specs.Typings.{is_state_kind};
ghost use Rattle.rw_types_equations.specs.Seen.{seen_world};
ghost use Rattle.rw_types.specs.Inside.{kind_at, AreCarried};

use crate::all_sorted;
use crate::kinds::{is_state_at, sorts_of, states_of};
use rw_base::OutOfMemory;
use rw_types_equations::World;
use rw_types_rules::VariableKind;
use rw_types_solving::{Term, is_state_monad};
use std::alloc::Global;

// Whether each number that has to stand for a state monad may do so.
fn all_state_monads(types: &[Term], slots: &[VariableKind], states: &[bool]) -> bool
    ensures { IsTrue result ↔ ((x : ℕ) → x < length types.now → is_state_kind (kind_at slots.now x) ≡ true → is_state_monad_type any (listed states.now) (meaning types.now x) ≡ true) }
{
    for (i, term) in types.iter().enumerate() {
        if is_state_at(slots, i) && !is_state_monad(term, states) {
            return false;
        }
    }
    true
}

// Whether each number's type is one that its kind may stand for, where the own signature has variables of these kinds.
pub fn are_carried(
    alloc: Global,
    types: &[Term],
    slots: &[VariableKind],
    own: &[VariableKind],
    world: &World,
) -> Result<bool, OutOfMemory>
    requires { length types.now ≡ length slots.now }
    ensures { IfOk result (λ carried. IsTrue carried ↔ AreCarried (seen_world world.now) slots.now own.now (meaning types.now)) }
{
    let sorts = sorts_of(alloc, slots)?;
    let states = states_of(alloc, own)?;
    let sorted = all_sorted(types, sorts.as_slice(), own, world);
    let stacked = all_state_monads(types, slots, states.as_slice());
    Ok(sorted && stacked)
}
