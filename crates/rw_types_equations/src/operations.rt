// The types of the operations.
ghost use Rattle.std.specs.Prelude.{◌≡◌, ◌∷◌, [], IfOk};
ghost use Rattle.rw_types_solving.specs.Types.{plain};
ghost use Rattle.rw_scope_rules.specs.declared.binding.Operation.TheVariants.{Return, Bind, Then, Get, Put, Lift, Signal, Extrude, Par, Refold};
ghost use Rattle.rw_types_rules.specs.Words.{over as over_type, state as state_type, device as device_type, computation as computation_type, identity, unit_type};
ghost use Rattle.rw_types_rules.specs.Schemes.{operation_scheme as scheme_of_operation};
ghost use Rattle.rw_types_equations.specs.Seen.{seen_scheme};

use crate::scheme::Scheme;
use crate::shape::{computation, function, functions_of, tuple_of};
use rw_base::OutOfMemory;
use rw_scope_rules::Operation;
use rw_types_rules::VariableKind;
use rw_types_solving::{Head, Term};
use sqlite_items::Items;
use std::alloc::Global;

// A layer over a monad.
#[tactic(auto, using(rw_types_solving::proofs::Plains::plain_forms))]
fn over(alloc: Global, layer: Term, monad: Term) -> Result<Term, OutOfMemory>
    ensures { IfOk result (λ made. plain made ≡ over_type (plain layer) (plain monad)) }
{
    let mut parts = Items::new(alloc);
    parts.push(layer)?;
    parts.push(monad)?;
    Ok(Term::App(Head::Layer, parts))
}

// The monad `StateT s m`.
#[tactic(auto, using(rw_types_solving::proofs::Plains::plain_forms))]
pub fn state(alloc: Global, s: Term, m: Term) -> Result<Term, OutOfMemory>
    ensures { IfOk result (λ made. plain made ≡ state_type (plain s) (plain m)) }
{
    let mut parts = Items::new(alloc);
    parts.push(s)?;
    over(alloc, Term::App(Head::StateT, parts), m)
}

// The monad `ReT i o m`.
#[tactic(auto, using(rw_types_solving::proofs::Plains::plain_forms))]
pub fn device(alloc: Global, i: Term, o: Term, m: Term) -> Result<Term, OutOfMemory>
    ensures { IfOk result (λ made. plain made ≡ device_type (plain i) (plain o) (plain m)) }
{
    let mut parts = Items::new(alloc);
    parts.push(i)?;
    parts.push(o)?;
    over(alloc, Term::App(Head::ReT, parts), m)
}

// A scheme that takes one thing.
fn takes_one(
    alloc: Global,
    kinds: &[VariableKind],
    takes: Term,
    gives: Term,
) -> Result<Scheme, OutOfMemory>
    ensures { IfOk result (λ made. seen_scheme made ≡ record { kinds = kinds.now; takes = plain takes ∷ []; gives = plain gives }) }
{
    let mut all = Items::new(alloc);
    all.push(takes)?;
    Ok(Scheme {
        kinds: Items::from_slice(alloc, kinds)?,
        takes: all,
        gives,
    })
}

// A scheme that takes two things.
fn takes_two(
    alloc: Global,
    kinds: &[VariableKind],
    first: Term,
    second: Term,
    gives: Term,
) -> Result<Scheme, OutOfMemory>
    ensures { IfOk result (λ made. seen_scheme made ≡ record { kinds = kinds.now; takes = plain first ∷ plain second ∷ []; gives = plain gives }) }
{
    let mut all = Items::new(alloc);
    all.push(first)?;
    all.push(second)?;
    Ok(Scheme {
        kinds: Items::from_slice(alloc, kinds)?,
        takes: all,
        gives,
    })
}

#[tactic(auto, using(rw_types_solving::proofs::Plains::plain_forms))]
fn return_scheme(alloc: Global) -> Result<Scheme, OutOfMemory>
    ensures { IfOk result (λ made. seen_scheme made ≡ scheme_of_operation Return) }
{
    let gives = computation(alloc, Term::Var(1), Term::Var(0))?;
    takes_one(
        alloc,
        &[VariableKind::Plain, VariableKind::Monad],
        Term::Var(0),
        gives,
    )
}

#[tactic(auto, using(rw_types_solving::proofs::Plains::plain_forms))]
fn bind_scheme(alloc: Global) -> Result<Scheme, OutOfMemory>
    ensures { IfOk result (λ made. seen_scheme made ≡ scheme_of_operation Bind) }
{
    let first = computation(alloc, Term::Var(0), Term::Var(1))?;
    let rest = computation(alloc, Term::Var(0), Term::Var(2))?;
    let second = function(alloc, Term::Var(1), rest)?;
    let gives = computation(alloc, Term::Var(0), Term::Var(2))?;
    let kinds = [
        VariableKind::Monad,
        VariableKind::Plain,
        VariableKind::Plain,
    ];
    takes_two(alloc, &kinds, first, second, gives)
}

#[tactic(auto, using(rw_types_solving::proofs::Plains::plain_forms))]
fn then_scheme(alloc: Global) -> Result<Scheme, OutOfMemory>
    ensures { IfOk result (λ made. seen_scheme made ≡ scheme_of_operation Then) }
{
    let first = computation(alloc, Term::Var(0), Term::Var(1))?;
    let second = computation(alloc, Term::Var(0), Term::Var(2))?;
    let gives = computation(alloc, Term::Var(0), Term::Var(2))?;
    let kinds = [
        VariableKind::Monad,
        VariableKind::Plain,
        VariableKind::Plain,
    ];
    takes_two(alloc, &kinds, first, second, gives)
}

#[tactic(auto, using(rw_types_solving::proofs::Plains::plain_forms))]
fn get_scheme(alloc: Global) -> Result<Scheme, OutOfMemory>
    ensures { IfOk result (λ made. seen_scheme made ≡ scheme_of_operation Get) }
{
    let monad = state(alloc, Term::Var(0), Term::Var(1))?;
    let gives = computation(alloc, monad, Term::Var(0))?;
    Ok(Scheme {
        kinds: Items::from_slice(alloc, &[VariableKind::Plain, VariableKind::StateMonad])?,
        takes: Items::new(alloc),
        gives,
    })
}

#[tactic(auto, using(rw_types_solving::proofs::Plains::plain_forms))]
fn put_scheme(alloc: Global) -> Result<Scheme, OutOfMemory>
    ensures { IfOk result (λ made. seen_scheme made ≡ scheme_of_operation Put) }
{
    let monad = state(alloc, Term::Var(0), Term::Var(1))?;
    let gives = computation(alloc, monad, Term::App(Head::Tuple, Items::new(alloc)))?;
    let kinds = [VariableKind::Plain, VariableKind::StateMonad];
    takes_one(alloc, &kinds, Term::Var(0), gives)
}

#[tactic(auto, using(rw_types_solving::proofs::Plains::plain_forms))]
fn lift_scheme(alloc: Global) -> Result<Scheme, OutOfMemory>
    ensures { IfOk result (λ made. seen_scheme made ≡ scheme_of_operation Lift) }
{
    let takes = computation(alloc, Term::Var(0), Term::Var(1))?;
    let monad = over(alloc, Term::Var(2), Term::Var(0))?;
    let gives = computation(alloc, monad, Term::Var(1))?;
    let kinds = [
        VariableKind::StateMonad,
        VariableKind::Plain,
        VariableKind::Layer,
    ];
    takes_one(alloc, &kinds, takes, gives)
}

#[tactic(auto, using(rw_types_solving::proofs::Plains::plain_forms))]
fn signal_scheme(alloc: Global) -> Result<Scheme, OutOfMemory>
    ensures { IfOk result (λ made. seen_scheme made ≡ scheme_of_operation Signal) }
{
    let monad = device(alloc, Term::Var(1), Term::Var(0), Term::Var(2))?;
    let gives = computation(alloc, monad, Term::Var(1))?;
    let kinds = [
        VariableKind::Plain,
        VariableKind::Plain,
        VariableKind::StateMonad,
    ];
    takes_one(alloc, &kinds, Term::Var(0), gives)
}

#[tactic(auto, using(rw_types_solving::proofs::Plains::plain_forms))]
fn extrude_scheme(alloc: Global) -> Result<Scheme, OutOfMemory>
    ensures { IfOk result (λ made. seen_scheme made ≡ scheme_of_operation Extrude) }
{
    let inner = state(alloc, Term::Var(2), Term::Var(3))?;
    let monad = device(alloc, Term::Var(0), Term::Var(1), inner)?;
    let first = computation(alloc, monad, Term::Var(4))?;
    let outer = device(alloc, Term::Var(0), Term::Var(1), Term::Var(3))?;
    let gives = computation(alloc, outer, Term::Var(4))?;
    let kinds = [
        VariableKind::Plain,
        VariableKind::Plain,
        VariableKind::Plain,
        VariableKind::StateMonad,
        VariableKind::Plain,
    ];
    takes_two(alloc, &kinds, first, Term::Var(2), gives)
}

// A device over `I` that gives nothing.
#[tactic(auto, using(rw_types_solving::proofs::Plains::plain_forms))]
fn closed_device(alloc: Global, i: Term, o: Term) -> Result<Term, OutOfMemory>
    ensures { IfOk result (λ made. plain made ≡ computation_type (device_type (plain i) (plain o) identity) unit_type) }
{
    let monad = device(alloc, i, o, Term::App(Head::I, Items::new(alloc)))?;
    computation(alloc, monad, Term::App(Head::Tuple, Items::new(alloc)))
}

#[tactic(auto, using(rw_types_solving::proofs::Plains::plain_forms))]
fn par_scheme(alloc: Global) -> Result<Scheme, OutOfMemory>
    ensures { IfOk result (λ made. seen_scheme made ≡ scheme_of_operation Par) }
{
    let first = closed_device(alloc, Term::Var(0), Term::Var(1))?;
    let second = closed_device(alloc, Term::Var(2), Term::Var(3))?;
    let inputs = tuple_of(alloc, &[0, 2])?;
    let outputs = tuple_of(alloc, &[1, 3])?;
    let gives = closed_device(alloc, inputs, outputs)?;
    takes_two(alloc, &[VariableKind::Plain; 4], first, second, gives)
}

#[tactic(auto, using(rw_types_solving::proofs::Plains::plain_forms))]
fn refold_scheme(alloc: Global) -> Result<Scheme, OutOfMemory>
    ensures { IfOk result (λ made. seen_scheme made ≡ scheme_of_operation Refold) }
{
    let mut takes = Items::new(alloc);
    takes.push(functions_of(alloc, &[0], 1)?)?;
    takes.push(functions_of(alloc, &[0, 2], 3)?)?;
    takes.push(closed_device(alloc, Term::Var(3), Term::Var(0))?)?;
    let gives = closed_device(alloc, Term::Var(2), Term::Var(1))?;
    Ok(Scheme {
        kinds: Items::from_slice(alloc, &[VariableKind::Plain; 4])?,
        takes,
        gives,
    })
}

// The type of an operation.
pub fn operation_scheme(alloc: Global, operation: Operation) -> Result<Scheme, OutOfMemory>
    ensures { IfOk result (λ made. seen_scheme made ≡ scheme_of_operation operation) }
{
    match operation {
        Operation::Return => return_scheme(alloc),
        Operation::Bind => bind_scheme(alloc),
        Operation::Then => then_scheme(alloc),
        Operation::Get => get_scheme(alloc),
        Operation::Put => put_scheme(alloc),
        Operation::Lift => lift_scheme(alloc),
        Operation::Signal => signal_scheme(alloc),
        Operation::Extrude => extrude_scheme(alloc),
        Operation::Par => par_scheme(alloc),
        Operation::Refold => refold_scheme(alloc),
    }
}
