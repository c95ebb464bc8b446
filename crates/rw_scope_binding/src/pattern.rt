// Patterns: bound, with their variables numbered from left to right.
ghost use Rattle.std.specs.Prelude.{◌≡◌, ◌+◌, length, IfOk, OnOk};
ghost use Rattle.rw_tree.specs.Views.{itself};
ghost use Rattle.rw_tree.specs.Patterns.{pattern, pattern_parts, patterns};
ghost use Rattle.rw_scope_rules.specs.Bindings.{bound_pattern, bound_row, inside, inside_row, parts_variables, pattern_variables, row_variables};
ghost use Rattle.rw_scope_binding.specs.Numbered.{known, numbered_parts, numbered_pattern, numbered_row};

use crate::annotation::{bound_to, next, unnamed};
use crate::enter::{enter_pattern, enter_row};
use crate::locals::Locals;
use crate::tops::Tops;
use rw_base::{OutOfMemory, Span};
use rw_scope_rules::{Binding, Bound};
use rw_tree::Pat;
use sqlite_items::Items;
use std::alloc::Global;

// A pattern whose variables have the numbers from this one on.
#[cycle(patterns)]
pub fn bind_pattern(
    alloc: Global,
    tops: &Tops,
    number: &mut u32,
    pat: &Pat<Span>,
) -> Result<Pat<Bound>, OutOfMemory>
    ensures tree { IfOk result (λ bound. pattern itself bound ≡ numbered_pattern (known tops.now) number.old (pattern itself pat.now)) }
    ensures count { OnOk result (number.new ≡ number.old + length (pattern_variables (pattern itself pat.now))) }
{
    match pat {
        Pat::Wild(at) => Ok(Pat::Wild(unnamed(*at))),
        Pat::Var(at, name) => {
            let binding = Binding::Local(next(number)?);
            Ok(Pat::Var(bound_to(*at, Some(binding)), name.copied(alloc)?))
        }
        Pat::Con(at, name, parts) => {
            let binding = tops.constructors.find(name);
            let name = name.copied(alloc)?;
            let parts = bind_row(alloc, tops, number, parts.as_slice())?;
            Ok(Pat::Con(bound_to(*at, binding), name, parts))
        }
        Pat::Tuple(at, parts) => {
            let parts = bind_row(alloc, tops, number, parts.as_slice())?;
            Ok(Pat::Tuple(unnamed(*at), parts))
        }
    }
}

// The patterns of one clause, or the parts of one pattern, in order.
#[cycle(patterns)]
pub fn bind_row(
    alloc: Global,
    tops: &Tops,
    number: &mut u32,
    pats: &[Pat<Span>],
) -> Result<Items<Pat<Bound>>, OutOfMemory>
    ensures trees { IfOk result (λ bound. patterns itself bound ≡ numbered_row (known tops.now) number.old (patterns itself pats.now)) }
    ensures parts { IfOk result (λ bound. pattern_parts (patterns itself bound) ≡ numbered_parts (known tops.now) number.old (pattern_parts (patterns itself pats.now))) }
    ensures count { OnOk result (number.new ≡ number.old + length (row_variables (patterns itself pats.now))) }
    ensures parts_count { OnOk result (number.new ≡ number.old + length (parts_variables (pattern_parts (patterns itself pats.now)))) }
{
    let mut bound = Items::new(alloc);
    for pat in pats {
        bound.push(bind_pattern(alloc, tops, number, pat)?)?;
    }
    Ok(bound)
}

// A pattern whose variables come into scope.
pub fn bind_new_pattern(
    alloc: Global,
    tops: &Tops,
    scope: &mut Locals,
    pat: &Pat<Span>,
) -> Result<Pat<Bound>, OutOfMemory>
    ensures tree { IfOk result (λ bound. pattern itself bound ≡ bound_pattern (known tops.now) scope.old (pattern itself pat.now)) }
    ensures scope { OnOk result (scope.new ≡ inside (pattern itself pat.now) scope.old) }
{
    let mut number = scope.depth();
    let bound = bind_pattern(alloc, tops, &mut number, pat)?;
    enter_pattern(alloc, scope, pat)?;
    Ok(bound)
}

// Patterns whose variables come into scope.
pub fn bind_new_row(
    alloc: Global,
    tops: &Tops,
    scope: &mut Locals,
    pats: &[Pat<Span>],
) -> Result<Items<Pat<Bound>>, OutOfMemory>
    ensures trees { IfOk result (λ bound. patterns itself bound ≡ bound_row (known tops.now) scope.old (patterns itself pats.now)) }
    ensures scope { OnOk result (scope.new ≡ inside_row (patterns itself pats.now) scope.old) }
{
    let mut number = scope.depth();
    let bound = bind_row(alloc, tops, &mut number, pats)?;
    enter_row(alloc, scope, pats)?;
    Ok(bound)
}
