// Clauses and alternatives, their right sides, and what follows `where`.
ghost use Rattle.std.specs.Prelude.{◌≡◌, map, IfOk, OnOk};
ghost use Rattle.rw_tree.specs.Views.{itself};
ghost use Rattle.rw_tree.specs.Patterns.{patterns};
ghost use Rattle.rw_tree.specs.Trees.{alternative, alternative_of, alternative_parts, binding_parts, body_parts, guarded, local_binding, right_side};
ghost use Rattle.rw_scope_rules.specs.Bindings.{bound_bodies, bound_body, bound_clause, bound_clauses, bound_side, unnamed as unnamed_at};
ghost use Rattle.rw_scope_binding.specs.Numbered.{known};

use crate::annotation::unnamed;
use crate::expr::bind_expr;
use crate::group::bind_group;
use crate::locals::Locals;
use crate::pattern::bind_new_row;
use crate::tops::Tops;
use rw_base::{OutOfMemory, Span};
use rw_scope_rules::Bound;
use rw_tree::{Alt, Guard, Local, Pat, Rhs};
use sqlite_items::Items;
use std::alloc::Global;

// A bound clause of these parts.
pub fn clause_of(
    at: Span,
    pats: Items<Pat<Bound>>,
    rhs: Rhs<Bound>,
    wheres: Items<Local<Bound>>,
) -> Alt<Bound>
    ensures { alternative_of itself result ≡ alternative (unnamed_at at) (patterns itself pats) (right_side itself rhs) (binding_parts (map (local_binding itself) wheres)) }
{
    Alt {
        at: unnamed(at),
        pats,
        rhs,
        wheres,
    }
}

// A clause in this scope.
#[tactic(auto, using(crate::proofs::Forms::scope_steps))]
#[cycle(binding)]
pub fn bind_clause(
    alloc: Global,
    tops: &Tops,
    scope: &mut Locals,
    clause: &Alt<Span>,
) -> Result<Alt<Bound>, OutOfMemory>
    ensures tree { IfOk result (λ bound. alternative_of itself bound ≡ bound_clause (known tops.now) scope.old (alternative_of itself clause.now)) }
    ensures scope { OnOk result (scope.new ≡ scope.old) }
{
    let outer = scope.depth();
    let pats = bind_new_row(alloc, tops, scope, clause.pats.as_slice())?;
    let wheres = bind_group(alloc, tops, scope, clause.wheres.as_slice())?;
    let rhs = bind_side(alloc, tops, scope, &clause.rhs)?;
    scope.leave(outer)?;
    Ok(clause_of(clause.at, pats, rhs, wheres))
}

#[cycle(binding)]
pub fn bind_clauses(
    alloc: Global,
    tops: &Tops,
    scope: &mut Locals,
    clauses: &[Alt<Span>],
) -> Result<Items<Alt<Bound>>, OutOfMemory>
    ensures trees { IfOk result (λ bound. map (alternative_of itself) bound ≡ map (bound_clause (known tops.now) scope.old) (map (alternative_of itself) clauses.now)) }
    ensures parts { IfOk result (λ bound. alternative_parts (map (alternative_of itself) bound) ≡ bound_clauses (known tops.now) scope.old (alternative_parts (map (alternative_of itself) clauses.now))) }
    ensures scope { OnOk result (scope.new ≡ scope.old) }
{
    let mut bound = Items::new(alloc);
    for clause in clauses {
        bound.push(bind_clause(alloc, tops, scope, clause)?)?;
    }
    Ok(bound)
}

#[cycle(binding)]
pub fn bind_side(
    alloc: Global,
    tops: &Tops,
    scope: &mut Locals,
    rhs: &Rhs<Span>,
) -> Result<Rhs<Bound>, OutOfMemory>
    ensures tree { IfOk result (λ bound. right_side itself bound ≡ bound_side (known tops.now) scope.old (right_side itself rhs.now)) }
    ensures scope { OnOk result (scope.new ≡ scope.old) }
{
    match rhs {
        Rhs::Plain(body) => {
            let body = bind_expr(alloc, tops, scope, body)?;
            Ok(Rhs::Plain(body))
        }
        Rhs::Guarded(guards) => {
            let guards = bind_guards(alloc, tops, scope, guards.as_slice())?;
            Ok(Rhs::Guarded(guards))
        }
    }
}

#[cycle(binding)]
fn bind_guard(
    alloc: Global,
    tops: &Tops,
    scope: &mut Locals,
    guard: &Guard<Span>,
) -> Result<Guard<Bound>, OutOfMemory>
    ensures tree { IfOk result (λ bound. guarded itself bound ≡ bound_body (known tops.now) scope.old (guarded itself guard.now)) }
    ensures scope { OnOk result (scope.new ≡ scope.old) }
{
    let test = bind_expr(alloc, tops, scope, &guard.test)?;
    let body = bind_expr(alloc, tops, scope, &guard.body)?;
    Ok(Guard { test, body })
}

#[cycle(binding)]
fn bind_guards(
    alloc: Global,
    tops: &Tops,
    scope: &mut Locals,
    guards: &[Guard<Span>],
) -> Result<Items<Guard<Bound>>, OutOfMemory>
    ensures trees { IfOk result (λ bound. body_parts (map (guarded itself) bound) ≡ bound_bodies (known tops.now) scope.old (body_parts (map (guarded itself) guards.now))) }
    ensures scope { OnOk result (scope.new ≡ scope.old) }
{
    let mut bound = Items::new(alloc);
    for guard in guards {
        bound.push(bind_guard(alloc, tops, scope, guard)?)?;
    }
    Ok(bound)
}
