// Types with variables: a variable is a number, and every other type is a head and its parts.
ghost use Rattle.std.specs.Prelude.{◌≡◌, ◌&&◌, ◌-◌, ◌^◌, IfOk, length, map};
ghost use Rattle.rw_types_solving.specs.Types.{top, top_in, plain, plains, occurs, occurs_in, tys, apply, nodes, nodes_in, own, same_head, is_known_layer, renaming};
ghost use Rattle.rw_types_solving.specs.Inside.{capped};

use rw_base::OutOfMemory;
use sqlite_items::Items;
use std::alloc::Global;

/// What a type is made by, where it is no variable.
#[derive(Clone, Copy, Debug, PartialEq, Eq)]
pub enum Head {
    /// A tuple of its parts; the unit type has none.
    Tuple,
    /// A function: its argument and its result.
    Fun,
    /// A data type, by the number of its declaration, and its arguments.
    Data(u32),
    /// A computation: a monad and the type of its result.
    Comp,
    /// The monad `I`, which has no parts.
    I,
    /// A layer and the monad under it: `StateT s m` is a `Layer` of `StateT` of `s`, and of `m`.
    Layer,
    /// The layer `StateT s`, with `s` as its part.
    StateT,
    /// The layer `ReT i o`, with the types of input and output as its parts.
    ReT,
    /// A variable of the declaration's own signature, by its number: an unknown type, which has no parts.
    Unknown(u32),
}

/// What a variable of a type stands for. That a monad is a state monad is a condition on it.
#[derive(Clone, Copy, Debug, PartialEq, Eq)]
pub enum Sort {
    /// A type.
    Plain,
    /// A monad.
    Monad,
    /// A layer.
    Layer,
}

/// A type with variables.
#[derive(Drop)]
pub enum Term {
    /// A variable, by its number.
    Var(u32),
    /// A head and the parts under it.
    App(Head, Items<Term>),
}

impl Head {
    /// Whether the heads are the same.
    pub fn is(self, other: Head) -> bool
        ensures { result ≡ same_head self other }
    {
        match (self, other) {
            (Head::Data(m), Head::Data(n)) => m == n,
            (Head::Unknown(m), Head::Unknown(n)) => m == n,
            (Head::Tuple, Head::Tuple) => true,
            (Head::Fun, Head::Fun) => true,
            (Head::Comp, Head::Comp) => true,
            (Head::I, Head::I) => true,
            (Head::Layer, Head::Layer) => true,
            (Head::StateT, Head::StateT) => true,
            (Head::ReT, Head::ReT) => true,
            _ => false,
        }
    }
}

/// A copy.
#[cycle(copying)]
pub fn copied(alloc: Global, term: &Term) -> Result<Term, OutOfMemory>
    ensures { IfOk result (λ made. plain made ≡ plain term.now) }
{
    match term {
        Term::Var(x) => Ok(Term::Var(*x)),
        Term::App(head, parts) => Ok(Term::App(*head, copied_all(alloc, parts.as_slice())?)),
    }
}

#[cycle(copying)]
fn copied_all(alloc: Global, terms: &[Term]) -> Result<Items<Term>, OutOfMemory>
    ensures { IfOk result (λ made. plains made ≡ plains terms.now) }
{
    let mut all = Items::new(alloc);
    for term in terms {
        all.push(copied(alloc, term)?)?;
    }
    Ok(all)
}

// Whether the type is `StateT s` or `ReT i o`.
#[tactic(auto, using(crate::proofs::Plains::state_layer, crate::proofs::Plains::device_layer))]
fn is_known_layer(term: &Term) -> bool
    ensures { result ≡ is_known_layer (plain term.now) }
{
    match term {
        Term::Var(_) => false,
        Term::App(head, parts) => match head {
            Head::StateT => parts.len() == 1,
            Head::ReT => parts.len() == 2,
            _ => false,
        },
    }
}

// How many nodes a head is with these parts: a known layer and the monad under it are one together.
fn own(head: Head, parts: &[Term]) -> u64
    ensures { result ≡ own head (tys (plains parts.now)) }
{
    match head {
        Head::Layer if parts.len() == 2 && is_known_layer(&parts[0]) => 0,
        _ => 1,
    }
}

/// How many nodes the type has, at most the largest number.
#[cycle(counting)]
pub fn count(term: &Term) -> u64
    ensures { result ≡ capped (nodes (plain term.now)) }
{
    match term {
        Term::Var(_) => 1,
        Term::App(head, parts) => {
            let here = own(*head, parts.as_slice());
            count_all(parts.as_slice()).saturating_add(here)
        }
    }
}

#[cycle(counting)]
fn count_all(terms: &[Term]) -> u64
    ensures { result ≡ capped (nodes_in (tys (plains terms.now))) }
{
    let mut sum: u64 = 0;
    for term in terms {
        sum = sum.saturating_add(count(term));
    }
    sum
}

/// Whether the variable occurs in the type.
#[cycle(having)]
pub fn has(term: &Term, x: u32) -> bool
    ensures { result ≡ occurs x (plain term.now) }
{
    match term {
        Term::Var(y) => x == *y,
        Term::App(_, parts) => any_has(parts.as_slice(), x),
    }
}

#[cycle(having)]
fn any_has(terms: &[Term], x: u32) -> bool
    ensures { result ≡ occurs_in x (tys (plains terms.now)) }
{
    for term in terms {
        if has(term, x) {
            return true;
        }
    }
    false
}

/// One more than the highest number of a variable of the type; 0 where it has none.
#[cycle(topping)]
pub fn top(term: &Term) -> u64
    ensures { result ≡ top (plain term.now) }
{
    match term {
        Term::Var(x) => *x as u64 + 1,
        Term::App(_, parts) => top_of_all(parts.as_slice()),
    }
}

#[cycle(topping)]
fn top_of_all(terms: &[Term]) -> u64
    ensures { result ≡ top_in (tys (plains terms.now)) }
{
    let mut highest: u64 = 0;
    for term in terms {
        highest = highest.max(top(term));
    }
    highest
}

/// An instance of a signature: its variable k gets the k-th of these numbers, and keeps its own where there is none.
#[cycle(renaming)]
pub fn instance(alloc: Global, term: &Term, names: &[u32]) -> Result<Term, OutOfMemory>
    ensures { IfOk result (λ made. plain made ≡ apply (renaming names.now) (plain term.now)) }
{
    match term {
        Term::Var(x) => match names.get(*x as usize) {
            Some(name) => Ok(Term::Var(*name)),
            None => Ok(Term::Var(*x)),
        },
        Term::App(head, parts) => {
            Ok(Term::App(*head, instances(alloc, parts.as_slice(), names)?))
        }
    }
}

#[cycle(renaming)]
fn instances(alloc: Global, terms: &[Term], names: &[u32]) -> Result<Items<Term>, OutOfMemory>
    ensures { IfOk result (λ made. plains made ≡ map (apply (renaming names.now)) (plains terms.now)) }
{
    let mut all = Items::new(alloc);
    for term in terms {
        all.push(instance(alloc, term, names)?)?;
    }
    Ok(all)
}
