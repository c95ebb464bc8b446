// Let groups: what one `let` or one `where` binds.
ghost use Rattle.std.specs.Prelude.{◌≡◌, ◌+◌, length, map, IfOk, OnOk};
ghost use Rattle.rw_tree.specs.Views.{itself};
ghost use Rattle.rw_tree.specs.Trees.{binding_parts, local_binding};
ghost use Rattle.rw_scope_rules.specs.Bindings.{binding_variables, bound_group, group_names, inside_group};
ghost use Rattle.rw_scope_binding.specs.Numbered.{known, numbered_binding};

use crate::annotation::{bound_to, next, unnamed};
use crate::clause::{bind_clauses, bind_side, clause_of};
use crate::enter::enter_group;
use crate::locals::Locals;
use crate::pattern::bind_row;
use crate::tops::{Tops, own_binding};
use rw_base::{OutOfMemory, Span};
use rw_scope_rules::{Binding, Bound};
use rw_tree::Local;
use rw_tree_copies::copied_type;
use sqlite_items::Items;
use std::alloc::Global;

// A group, whose names are in scope in it and after it.
#[cycle(binding)]
pub fn bind_group(
    alloc: Global,
    tops: &Tops,
    scope: &mut Locals,
    locals: &[Local<Span>],
) -> Result<Items<Local<Bound>>, OutOfMemory>
    ensures trees { IfOk result (λ bound. let group = binding_parts (map (local_binding itself) locals.now) in binding_parts (map (local_binding itself) bound) ≡ bound_group (known tops.now) (group_names group) (inside_group group scope.old) scope.old group) }
    ensures scope { OnOk result (scope.new ≡ inside_group (binding_parts (map (local_binding itself) locals.now)) scope.old) }
{
    let outer = scope.depth();
    enter_group(alloc, scope, locals)?;
    let mut number = outer;
    let mut bound = Items::new(alloc);
    for local in locals {
        bound.push(bind_local(alloc, tops, scope, outer, &mut number, local)?)?;
    }
    Ok(bound)
}

// A binding of a group whose names are in scope and are numbered from the outer number on.
#[tactic(auto, using(crate::proofs::Forms::scope_steps))]
#[cycle(binding)]
fn bind_local(
    alloc: Global,
    tops: &Tops,
    scope: &mut Locals,
    outer: u32,
    number: &mut u32,
    local: &Local<Span>,
) -> Result<Local<Bound>, OutOfMemory>
    ensures tree { IfOk result (λ bound. local_binding itself bound ≡ numbered_binding (known tops.now) outer scope.old number.old (local_binding itself local.now)) }
    ensures count { OnOk result (number.new ≡ number.old + length (binding_variables (local_binding itself local.now))) }
    ensures scope { OnOk result (scope.new ≡ scope.old) }
{
    match local {
        Local::Sig(at, name, written) => {
            let binding = own_binding(outer, scope, name);
            let name = name.copied(alloc)?;
            Ok(Local::Sig(bound_to(*at, binding), name, copied_type(alloc, written)?))
        }
        Local::Fun(at, name, clauses) => {
            let binding = Binding::Local(next(number)?);
            let name = name.copied(alloc)?;
            let clauses = bind_clauses(alloc, tops, scope, clauses.as_slice())?;
            Ok(Local::Fun(bound_to(*at, Some(binding)), name, clauses))
        }
        Local::Pattern(at, clause) => {
            let pats = bind_row(alloc, tops, number, clause.pats.as_slice())?;
            let inner = scope.depth();
            let wheres = bind_group(alloc, tops, scope, clause.wheres.as_slice())?;
            let rhs = bind_side(alloc, tops, scope, &clause.rhs)?;
            scope.leave(inner)?;
            let bound = clause_of(clause.at, pats, rhs, wheres);
            Ok(Local::Pattern(unnamed(*at), bound))
        }
    }
}
