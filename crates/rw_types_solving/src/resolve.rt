// What a type comes to under a table of equations, within a bound on how large it may be.
ghost use Rattle.std.specs.Prelude.{◌≡◌, ℕ, ◌+◌, IfOk, Err};
ghost use Rattle.std.specs.Option.{option_copied};
ghost use Rattle.rw_types_solving.specs.Types.{Ty, plain, plains, tys, app};
ghost use Rattle.rw_types_solving.specs.Tables.{equation, equations, type_at, Follows, Falls};
ghost use Rattle.rw_types_solving.specs.Inside.{image, size, size_in, ComesTo, ComeTo, IsLarger, AreLarger};
ghost use Rattle.rw_base.specs.declared.fail.Failure.TheVariants as fail;

use crate::{Head, NoSolution, Term, Unsolved};
use sqlite_items::Items;
use std::alloc::Global;

/// How many heads and variables a type of 1,024 nodes has at most: a layer and the monad under it are one node, and two
/// heads.
pub const LARGEST: u32 = 2047;

/// The end of a variable's links: a variable without an equation, or a type that is no variable.
pub enum End<'a> {
    Open(u32),
    Known(Head, &'a [Term]),
}

// The type that the variable is equal to, where it has an equation.
fn entry(entries: &[Option<Term>], x: u32) -> Option<&Term>
    ensures { equation (option_copied result) ≡ type_at (equations entries.now) x }
{
    match entries.get(x as usize) {
        Some(Some(term)) => Some(term),
        _ => None,
    }
}

// The end of the variable's links.
fn end_of(entries: &[Option<Term>], from: u32) -> End<'_>
    requires { Falls (equations entries.now) }
    ensures { (s : ℕ → Ty) → Follows (equations entries.now) s → s from ≡ image s result }
{
    let mut x = from;
    'links: loop {
        match entry(entries, x) {
            None => return End::Open(x),
            Some(Term::Var(y)) => x = *y,
            Some(Term::App(head, parts)) => return End::Known(*head, parts.as_slice()),
        }
    }
}

// What the type comes to, and how much of the budget is left: each head and each variable takes one of it. Refused
// where the budget is too small.
#[cycle(resolving)]
pub fn resolved(
    alloc: Global,
    term: &Term,
    entries: &[Option<Term>],
    budget: u32,
) -> Result<(Term, u32), Unsolved>
    requires { Falls (equations entries.now) }
    ensures made { IfOk result (λ r. ComesTo (equations entries.now) (plain term.now) (plain r.0)) }
    ensures left { IfOk result (λ r. r.1 + size (plain r.0) ≡ budget) }
    ensures refused { result ≡ Err (fail.Refused (record {})) → IsLarger (equations entries.now) budget (plain term.now) }
{
    if budget == 0 {
        return Err(Unsolved::Refused(NoSolution));
    }
    let left = budget - 1;
    match term {
        Term::Var(x) => match end_of(entries, *x) {
            End::Open(y) => Ok((Term::Var(y), left)),
            End::Known(head, parts) => resolved_under(alloc, head, parts, entries, left),
        },
        Term::App(head, parts) => { resolved_under(alloc, *head, parts.as_slice(), entries, left) }
    }
}

// The same of a head and its parts, where the head is paid.
#[cycle(resolving)]
fn resolved_under(
    alloc: Global,
    head: Head,
    parts: &[Term],
    entries: &[Option<Term>],
    budget: u32,
) -> Result<(Term, u32), Unsolved>
    requires { Falls (equations entries.now) }
    ensures made { IfOk result (λ r. ComesTo (equations entries.now) (app head (tys (plains parts.now))) (plain r.0)) }
    ensures left { IfOk result (λ r. r.1 + size (plain r.0) ≡ budget + 1) }
    ensures refused { result ≡ Err (fail.Refused (record {})) → IsLarger (equations entries.now) (budget + 1) (app head (tys (plains parts.now))) }
{
    match resolved_all(alloc, parts, entries, budget) {
        Ok((all, left)) => Ok((Term::App(head, all), left)),
        Err(failure) => Err(failure),
    }
}

#[cycle(resolving)]
fn resolved_all(
    alloc: Global,
    terms: &[Term],
    entries: &[Option<Term>],
    budget: u32,
) -> Result<(Items<Term>, u32), Unsolved>
    requires { Falls (equations entries.now) }
    ensures made { IfOk result (λ r. ComeTo (equations entries.now) (plains terms.now) (plains r.0)) }
    ensures left { IfOk result (λ r. r.1 + size_in (tys (plains r.0)) ≡ budget) }
    ensures refused { result ≡ Err (fail.Refused (record {})) → AreLarger (equations entries.now) budget (tys (plains terms.now)) }
{
    let mut all = Items::new(alloc);
    let mut left = budget;
    for term in terms {
        match resolved(alloc, term, entries, left) {
            Ok((one, rest)) => {
                left = rest;
                all.push(one)?;
            }
            Err(failure) => return Err(failure),
        }
    }
    Ok((all, left))
}
