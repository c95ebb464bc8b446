// Names that come into scope.
ghost use Rattle.std.specs.Prelude.{◌≡◌, map, OnOk};
ghost use Rattle.rw_tree.specs.Views.{itself};
ghost use Rattle.rw_tree.specs.Patterns.{pattern, pattern_parts, patterns};
ghost use Rattle.rw_tree.specs.Trees.{binding_parts, local_binding};
ghost use Rattle.rw_scope_rules.specs.Bindings.{binding_variables, entered, inside, inside_group, inside_row, names_of, parts_variables};

use crate::locals::Locals;
use rw_base::{OutOfMemory, Span};
use rw_tree::{Local, Pat};
use std::alloc::Global;

// The variables of a pattern.
#[cycle(entering)]
pub fn enter_pattern(alloc: Global, scope: &mut Locals, pat: &Pat<Span>) -> Result<(), OutOfMemory>
    ensures { OnOk result (scope.new ≡ inside (pattern itself pat.now) scope.old) }
{
    match pat {
        Pat::Wild(_) => Ok(()),
        Pat::Var(_, name) => scope.bind(alloc, name),
        Pat::Con(_, _, parts) => enter_row(alloc, scope, parts.as_slice()),
        Pat::Tuple(_, parts) => enter_row(alloc, scope, parts.as_slice()),
    }
}

// Those of several patterns.
#[cycle(entering)]
pub fn enter_row(alloc: Global, scope: &mut Locals, pats: &[Pat<Span>]) -> Result<(), OutOfMemory>
    ensures row { OnOk result (scope.new ≡ inside_row (patterns itself pats.now) scope.old) }
    ensures parts { OnOk result (scope.new ≡ entered (names_of (parts_variables (pattern_parts (patterns itself pats.now)))) scope.old) }
{
    for pat in pats {
        enter_pattern(alloc, scope, pat)?;
    }
    Ok(())
}

// What a local declaration binds.
fn enter_local(alloc: Global, scope: &mut Locals, local: &Local<Span>) -> Result<(), OutOfMemory>
    ensures { OnOk result (scope.new ≡ entered (names_of (binding_variables (local_binding itself local.now))) scope.old) }
{
    match local {
        Local::Sig(_, _, _) => Ok(()),
        Local::Fun(_, name, _) => scope.bind(alloc, name),
        Local::Pattern(_, bound) => enter_row(alloc, scope, bound.pats.as_slice()),
    }
}

// What a let group binds.
pub fn enter_group(
    alloc: Global,
    scope: &mut Locals,
    locals: &[Local<Span>],
) -> Result<(), OutOfMemory>
    ensures { OnOk result (scope.new ≡ inside_group (binding_parts (map (local_binding itself) locals.now)) scope.old) }
{
    for local in locals {
        enter_local(alloc, scope, local)?;
    }
    Ok(())
}
