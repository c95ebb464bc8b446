// The condition that a variable stands for a state monad.
ghost use Rattle.std.specs.Prelude.{◌≡◌, true};
ghost use Rattle.rw_types_solving.specs.Types.{plain, plains, tys, meaning};
ghost use Rattle.rw_types_solving.specs.Conditions.{is_state_layer, is_state_head, is_state_monad, are_stacked, hold, any, listed};

use crate::{Head, Term};

// Whether the type may be a layer `StateT s`.
fn is_state_layer(term: &Term) -> bool
    ensures { result ≡ is_state_layer any (plain term.now) }
{
    match term {
        Term::Var(_) => true,
        Term::App(head, _) => match head {
            Head::StateT => true,
            _ => false,
        },
    }
}

// Whether a state monad may have this head, with so many parts.
fn is_state_head(head: Head, parts: usize, states: &[bool]) -> bool
    ensures { result ≡ is_state_head (listed states.now) head parts }
{
    match head {
        Head::I => parts == 0,
        Head::Unknown(m) => match states.get(m as usize) {
            Some(is_state) => *is_state && parts == 0,
            None => false,
        },
        Head::Layer => parts == 2,
        _ => false,
    }
}

/// Whether the type may be a state monad, where the list says which unknown monads are.
#[cycle(stacking)]
pub fn is_state_monad(term: &Term, states: &[bool]) -> bool
    ensures { result ≡ is_state_monad any (listed states.now) (plain term.now) }
{
    match term {
        Term::Var(_) => true,
        Term::App(head, parts) => {
            is_state_head(*head, parts.len(), states) && are_stacked(parts.as_slice(), states)
        }
    }
}

#[cycle(stacking)]
fn are_stacked(terms: &[Term], states: &[bool]) -> bool
    ensures { result ≡ are_stacked any (listed states.now) true (tys (plains terms.now)) }
{
    let mut first = true;
    for term in terms {
        let holds = if first {
            is_state_layer(term)
        } else {
            is_state_monad(term, states)
        };
        if !holds {
            return false;
        }
        first = false;
    }
    true
}

// Whether the variable may stand for a state monad.
fn holds_at(types: &[Term], x: u32, states: &[bool]) -> bool
    ensures { result ≡ is_state_monad any (listed states.now) (meaning types.now x) }
{
    match types.get(x as usize) {
        Some(term) => is_state_monad(term, states),
        None => true,
    }
}

/// Whether each variable of the list may stand for a state monad.
pub fn all_hold(types: &[Term], conditions: &[u32], states: &[bool]) -> bool
    ensures { result ≡ hold any (listed states.now) (meaning types.now) conditions.now }
{
    for x in conditions {
        if !holds_at(types, *x, states) {
            return false;
        }
    }
    true
}
