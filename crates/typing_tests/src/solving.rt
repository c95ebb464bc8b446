// Equations on types: what they come to, and where they have no solution.
ghost use Rattle.std.specs.Prelude.{IfOk};
ghost use Rattle.rw_types_solving.specs.Tables.{equations, IsTable};

use rw_types_solving::{
    Head, Sort, Table, Term, Unsolved, closed, copied, count, has, instance, is_state_monad, top,
};
use sqlite_items::Items;
use std::alloc::Global;

/// A head without parts.
fn leaf(alloc: Global, head: Head) -> Term {
    Term::App(head, Items::new(alloc))
}

/// A head and one part.
fn one(alloc: Global, head: Head, part: Term) -> Result<Term, Unsolved> {
    let mut parts = Items::new(alloc);
    parts.push(part)?;
    Ok(Term::App(head, parts))
}

/// A head and two parts.
fn two(alloc: Global, head: Head, first: Term, second: Term) -> Result<Term, Unsolved> {
    let mut parts = Items::new(alloc);
    parts.push(first)?;
    parts.push(second)?;
    Ok(Term::App(head, parts))
}

/// The unit type.
fn unit(alloc: Global) -> Term {
    leaf(alloc, Head::Tuple)
}

/// Makes two types of the table's variables the same.
fn join(alloc: Global, table: &mut Table, a: &Term, b: &Term) -> Result<(), Unsolved>
    requires { IsTable (equations table.old) }
    ensures { IfOk result (λ _. IsTable (equations table.new)) }
{
    let variables = table.len() as u64;
    if top(a) > variables || top(b) > variables {
        return Err(Unsolved::OutOfMemory);
    }
    table.equate(alloc, a, b)
}

/// The default solution of the equations.
fn solved(
    alloc: Global,
    pairs: &[(Term, Term)],
    sorts: &[Sort],
    conditions: &[u32],
    states: &[bool],
) -> Result<Items<Term>, Unsolved> {
    if sorts.len() > 100 {
        return Err(Unsolved::OutOfMemory);
    }
    let mut table = Table::new(alloc, sorts.len() as u32)?;
    for pair in pairs {
        join(alloc, &mut table, &pair.0, &pair.1)?;
    }
    if sorts.len() != table.len() {
        return Err(Unsolved::OutOfMemory);
    }
    table.default(alloc, sorts, conditions, states)
}

/// Whether the two types are made the same.
fn meets(alloc: Global, a: Term, b: Term, sorts: &[Sort]) -> Result<bool, Unsolved> {
    let mut pairs = Items::new(alloc);
    pairs.push((a, b))?;
    match solved(alloc, pairs.as_slice(), sorts, &[], &[]) {
        Ok(_) => Ok(true),
        Err(Unsolved::Refused(_)) => Ok(false),
        Err(failure) => Err(failure),
    }
}

/// Whether the variable may be a state monad, where it is this type.
fn is_state(alloc: Global, monad: Term, states: &[bool]) -> Result<bool, Unsolved> {
    let mut pairs = Items::new(alloc);
    pairs.push((Term::Var(0), monad))?;
    let sorts = [Sort::Monad, Sort::Layer, Sort::Monad];
    match solved(alloc, pairs.as_slice(), &sorts, &[0], states) {
        Ok(_) => Ok(true),
        Err(Unsolved::Refused(_)) => Ok(false),
        Err(failure) => Err(failure),
    }
}

#[cycle(terms)]
fn is_same(found: &Term, term: &Term) -> bool {
    match (found, term) {
        (Term::Var(x), Term::Var(y)) => x == y,
        (Term::App(f, xs), Term::App(g, ys)) => {
            *f == *g && are_same(xs.as_slice(), ys.as_slice())
        }
        _ => false,
    }
}

#[cycle(terms)]
fn are_same(found: &[Term], terms: &[Term]) -> bool {
    if found.len() != terms.len() {
        return false;
    }
    for (at, term) in found.iter().enumerate() {
        if !is_same(term, &terms[at]) {
            return false;
        }
    }
    true
}

/// Whether the answer at this number is the type.
fn is_at(types: &Items<Term>, x: usize, term: &Term) -> bool {
    match types.get(x) {
        Some(found) => is_same(found, term),
        None => false,
    }
}

/// Pairs of pairs: variable k is a pair of variable k - 1.
fn chain(alloc: Global, links: u32) -> Result<Items<(Term, Term)>, Unsolved> {
    let mut pairs = Items::new(alloc);
    for k in 1..links {
        let pair = two(alloc, Head::Tuple, Term::Var(k - 1), Term::Var(k - 1))?;
        pairs.push((Term::Var(k), pair))?;
    }
    Ok(pairs)
}

/// Whether a chain of pairs has a solution, with this type as variable 12.
fn chain_is_solved(alloc: Global, links: u32, last: Term) -> Result<bool, Unsolved> {
    let mut pairs = chain(alloc, links)?;
    pairs.push((Term::Var(12), last))?;
    match solved(alloc, pairs.as_slice(), &[Sort::Plain; 13], &[], &[]) {
        Ok(_) => Ok(true),
        Err(Unsolved::Refused(_)) => Ok(false),
        Err(failure) => Err(failure),
    }
}

#[test]
fn heads_that_differ_clash(rt: HostRuntime) -> Result<(), Unsolved> {
    let alloc = rt.alloc();
    let cases = [
        (Head::Tuple, Head::Tuple, true),
        (Head::Data(1), Head::Data(1), true),
        (Head::Data(1), Head::Data(2), false),
        (Head::Tuple, Head::Data(0), false),
        (Head::Unknown(0), Head::Unknown(0), true),
        (Head::Unknown(0), Head::Unknown(1), false),
        (Head::I, Head::Unknown(0), false),
    ];
    for (a, b, same) in cases {
        assert!(rt; meets(alloc, leaf(alloc, a), leaf(alloc, b), &[])? == same);
    }
    let short = one(alloc, Head::Tuple, unit(alloc))?;
    let long = two(alloc, Head::Tuple, unit(alloc), unit(alloc))?;
    assert!(rt; !meets(alloc, short, long, &[])?);
    Ok(())
}

#[test]
fn a_type_has_no_part_that_is_itself(rt: HostRuntime) -> Result<(), Unsolved> {
    let alloc = rt.alloc();
    let pair = two(alloc, Head::Tuple, Term::Var(1), Term::Var(0))?;
    assert!(rt; !meets(alloc, Term::Var(0), pair, &[Sort::Plain; 2])?);
    let other = two(alloc, Head::Tuple, Term::Var(1), Term::Var(1))?;
    assert!(rt; meets(alloc, Term::Var(0), other, &[Sort::Plain; 2])?);
    assert!(rt; meets(alloc, Term::Var(0), Term::Var(0), &[Sort::Plain; 2])?);
    Ok(())
}

#[test]
fn a_chain_of_pairs_ends_at_its_tenth_link(rt: HostRuntime) -> Result<(), Unsolved> {
    let alloc = rt.alloc();
    let whole = one(alloc, Head::Tuple, Term::Var(9))?;
    assert!(rt; chain_is_solved(alloc, 10, whole)?);
    let larger = two(alloc, Head::Tuple, Term::Var(9), Term::Var(0))?;
    assert!(rt; !chain_is_solved(alloc, 10, larger)?);
    assert!(rt; !chain_is_solved(alloc, 11, unit(alloc))?);
    assert!(rt; !chain_is_solved(alloc, 12, Term::Var(11))?);
    Ok(())
}

#[test]
fn lift_goes_through_layers(rt: HostRuntime) -> Result<(), Unsolved> {
    let alloc = rt.alloc();
    let lower = two(alloc, Head::Layer, Term::Var(1), Term::Var(0))?;
    let lifted = two(alloc, Head::Layer, Term::Var(2), lower)?;
    let state = one(alloc, Head::StateT, Term::Var(3))?;
    let device = two(alloc, Head::ReT, unit(alloc), unit(alloc))?;
    let under = two(alloc, Head::Layer, state, leaf(alloc, Head::I))?;
    let written = two(alloc, Head::Layer, device, under)?;
    let mut pairs = Items::new(alloc);
    pairs.push((lifted, written))?;
    let sorts = [Sort::Monad, Sort::Layer, Sort::Layer, Sort::Plain];
    let types = solved(alloc, pairs.as_slice(), &sorts, &[0], &[])?;
    assert!(rt; is_at(&types, 0, &leaf(alloc, Head::I)));
    assert!(rt; is_at(&types, 1, &one(alloc, Head::StateT, unit(alloc))?));
    assert!(rt; is_at(&types, 2, &two(alloc, Head::ReT, unit(alloc), unit(alloc))?));
    assert!(rt; is_at(&types, 3, &unit(alloc)));
    Ok(())
}

#[test]
fn a_state_monad_has_no_other_layers(rt: HostRuntime) -> Result<(), Unsolved> {
    let alloc = rt.alloc();
    let state = one(alloc, Head::StateT, unit(alloc))?;
    let device = two(alloc, Head::ReT, unit(alloc), unit(alloc))?;
    let over_state = two(alloc, Head::Layer, state, leaf(alloc, Head::I))?;
    let over_device = two(alloc, Head::Layer, device, leaf(alloc, Head::I))?;
    let second = one(alloc, Head::StateT, unit(alloc))?;
    let deep = two(alloc, Head::Layer, second, copied(alloc, &over_device)?)?;
    let open = two(alloc, Head::Layer, Term::Var(1), Term::Var(2))?;
    assert!(rt; is_state(alloc, leaf(alloc, Head::I), &[])?);
    assert!(rt; is_state(alloc, over_state, &[])?);
    assert!(rt; is_state(alloc, open, &[])?);
    assert!(rt; !is_state(alloc, over_device, &[])?);
    assert!(rt; !is_state(alloc, deep, &[])?);
    assert!(rt; is_state(alloc, leaf(alloc, Head::Unknown(0)), &[true])?);
    assert!(rt; !is_state(alloc, leaf(alloc, Head::Unknown(0)), &[false])?);
    assert!(rt; !is_state_monad(&leaf(alloc, Head::Unknown(1)), &[true]));
    Ok(())
}

#[test]
fn leftover_variables_are_closed_by_their_sorts(rt: HostRuntime) -> Result<(), Unsolved> {
    let alloc = rt.alloc();
    let sorts = [Sort::Plain, Sort::Monad, Sort::Layer];
    let types = solved(alloc, &[], &sorts, &[1], &[])?;
    assert!(rt; is_at(&types, 0, &unit(alloc)));
    assert!(rt; is_at(&types, 1, &leaf(alloc, Head::I)));
    assert!(rt; is_at(&types, 2, &one(alloc, Head::StateT, unit(alloc))?));
    assert!(rt; matches!(closed(alloc, &Term::Var(3), &sorts)?, Term::Var(3)));
    Ok(())
}

#[test]
fn a_layer_that_is_known_is_one_node_with_its_monad(rt: HostRuntime) -> Result<(), Unsolved> {
    let alloc = rt.alloc();
    let state = one(alloc, Head::StateT, unit(alloc))?;
    let known = two(alloc, Head::Layer, state, leaf(alloc, Head::I))?;
    let open = two(alloc, Head::Layer, Term::Var(0), Term::Var(1))?;
    assert!(rt; count(&known) == 3);
    assert!(rt; count(&open) == 3);
    assert!(rt; top(&open) == 2);
    assert!(rt; has(&open, 1));
    assert!(rt; !has(&known, 1));
    let renewed = instance(alloc, &open, &[4, 7])?;
    assert!(rt; has(&renewed, 7));
    assert!(rt; !has(&renewed, 1));
    Ok(())
}
