// Clauses and alternatives, their right sides and their local declarations, made part by part with their levels.
ghost use Rattle.std.specs.Prelude.{◌≡◌, map};
ghost use Rattle.rw_parser_chains.specs.Fixities.{strength_at};
ghost use Rattle.rw_base.specs.Answers.{Gives};
ghost use Rattle.rw_parser_chains.specs.Resolving.{all_of, guard_made, local_made, row_made, side_made};

use crate::expr::expression;
use crate::nodes::{Parts, bound, clause_of, function, signature};
use rw_base::Span;
use rw_parser_chains::{Fixities, Unresolved, patterns_fit, type_fits};
use rw_tree::{Alt, Guard, Local, Rhs};
use sqlite_items::Items;
use std::alloc::Global;

/// The clause or the alternative with its chains grouped, and its levels.
#[cycle(resolving)]
#[tactic(auto, using(rw_parser_chains::proofs::Forms::made_forms))]
pub fn clause(
    alloc: Global,
    fixities: &Fixities,
    row: &Alt<Span>,
) -> Result<(Alt<Span>, usize), Unresolved>
    ensures { Gives (λ c. c) result (row_made (strength_at fixities.now) row.now) }
{
    let levels = patterns_fit(row.pats.as_slice())?;
    let rhs = side(alloc, fixities, &row.rhs)?;
    let wheres = locals(alloc, fixities, row.wheres.as_slice())?;
    clause_of(alloc, row, levels, rhs, wheres)
}

/// Clauses beside one another.
#[cycle(resolving)]
pub fn clauses(
    alloc: Global,
    fixities: &Fixities,
    rows: &[Alt<Span>],
) -> Result<Parts<Alt<Span>>, Unresolved>
    ensures { Gives (λ c. c) result (all_of (map (row_made (strength_at fixities.now)) rows.now)) }
{
    let mut made = Items::new(alloc);
    let mut levels = 0;
    for row in rows {
        let (one, one_levels) = clause(alloc, fixities, row)?;
        made.push(one)?;
        levels = levels.max(one_levels);
    }
    Ok((made, levels))
}

// A right side, which is no node.
#[cycle(resolving)]
#[tactic(auto, using(rw_parser_chains::proofs::Forms::made_forms))]
fn side(
    alloc: Global,
    fixities: &Fixities,
    rhs: &Rhs<Span>,
) -> Result<(Rhs<Span>, usize), Unresolved>
    ensures { Gives (λ c. c) result (side_made (strength_at fixities.now) rhs.now) }
{
    match rhs {
        Rhs::Plain(body) => {
            let (body, levels) = expression(alloc, fixities, body)?;
            Ok((Rhs::Plain(body), levels))
        }
        Rhs::Guarded(bodies) => {
            let (bodies, levels) = guards(alloc, fixities, bodies.as_slice())?;
            Ok((Rhs::Guarded(bodies), levels))
        }
    }
}

// A test and its body, which are no node.
#[cycle(resolving)]
#[tactic(auto, using(rw_parser_chains::proofs::Forms::made_forms))]
fn guard(
    alloc: Global,
    fixities: &Fixities,
    given: &Guard<Span>,
) -> Result<(Guard<Span>, usize), Unresolved>
    ensures { Gives (λ c. c) result (guard_made (strength_at fixities.now) given.now) }
{
    let (test, test_levels) = expression(alloc, fixities, &given.test)?;
    let (body, body_levels) = expression(alloc, fixities, &given.body)?;
    Ok((Guard { test, body }, test_levels.max(body_levels)))
}

// Tests and their bodies beside one another.
#[cycle(resolving)]
fn guards(
    alloc: Global,
    fixities: &Fixities,
    bodies: &[Guard<Span>],
) -> Result<Parts<Guard<Span>>, Unresolved>
    ensures { Gives (λ c. c) result (all_of (map (guard_made (strength_at fixities.now)) bodies.now)) }
{
    let mut made = Items::new(alloc);
    let mut levels = 0;
    for body in bodies {
        let (one, one_levels) = guard(alloc, fixities, body)?;
        made.push(one)?;
        levels = levels.max(one_levels);
    }
    Ok((made, levels))
}

// A local declaration.
#[cycle(resolving)]
#[tactic(auto, using(rw_parser_chains::proofs::Forms::made_forms))]
fn local(
    alloc: Global,
    fixities: &Fixities,
    binding: &Local<Span>,
) -> Result<(Local<Span>, usize), Unresolved>
    ensures { Gives (λ c. c) result (local_made (strength_at fixities.now) binding.now) }
{
    match binding {
        Local::Sig(at, name, written) => {
            let levels = type_fits(written)?;
            signature(alloc, *at, name, written, levels)
        }
        Local::Fun(at, name, rows) => {
            let rows = clauses(alloc, fixities, rows.as_slice())?;
            function(alloc, *at, name, rows)
        }
        Local::Pattern(at, row) => {
            let row = clause(alloc, fixities, row)?;
            bound(*at, row)
        }
    }
}

/// Local declarations beside one another.
#[cycle(resolving)]
pub fn locals(
    alloc: Global,
    fixities: &Fixities,
    bindings: &[Local<Span>],
) -> Result<Parts<Local<Span>>, Unresolved>
    ensures { Gives (λ c. c) result (all_of (map (local_made (strength_at fixities.now)) bindings.now)) }
{
    let mut made = Items::new(alloc);
    let mut levels = 0;
    for binding in bindings {
        let (one, one_levels) = local(alloc, fixities, binding)?;
        made.push(one)?;
        levels = levels.max(one_levels);
    }
    Ok((made, levels))
}
