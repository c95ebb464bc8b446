// Scoping: the rules in the order of their codes, and the bound tree.
ghost use Rattle.std.specs.Prelude.{◌≡◌, None, IfOk};
ghost use Rattle.rw_tree.specs.Views.{itself};
ghost use Rattle.rw_tree.specs.Declarations.{plain_program};
ghost use Rattle.rw_scope_rules.specs.Bindings.{bound_program};
ghost use Rattle.rw_scope_rules.specs.Verdict.{IsScoped, first_broken};
ghost use Rattle.rw_base.specs.Answers.{IsJudged};
ghost use Rattle.rw_scope.specs.Rules.{broken_names, broken_types};

use crate::refuse::refuse;
use rw_base::{Fail, Rule, Span};
use rw_scope_binding::bind;
use rw_scope_groups::cyclic;
use rw_scope_kinds::{misused, recursive_or_empty};
use rw_scope_names::{declared_twice, unbound, unknown_modules, unpaired};
use rw_scope_rules::{Bound, Scoped, verdict_law};
use rw_tree::Program;
use std::alloc::Global;

// The rules on names, E06 to E09.
fn judge_names(alloc: Global, program: &Program<Span>, bound: &Program<Bound>) -> Result<(), Fail>
    ensures { plain_program itself bound.now ≡ bound_program (plain_program itself program.now) → IsJudged (broken_names (plain_program itself program.now) None) result }
{
    let modules = unknown_modules(alloc, program)?;
    refuse(Rule::E06, modules.as_slice())?;
    let twice = declared_twice(alloc, program)?;
    refuse(Rule::E07, twice.as_slice())?;
    let nothing = unbound(alloc, program, bound)?;
    refuse(Rule::E08, nothing.as_slice())?;
    let alone = unpaired(alloc, program)?;
    refuse(Rule::E09, alone.as_slice())
}

// The rules on types and let groups, E10 to E12.
fn judge_types(alloc: Global, program: &Program<Span>, bound: &Program<Bound>) -> Result<(), Fail>
    ensures { plain_program itself bound.now ≡ bound_program (plain_program itself program.now) → IsJudged (broken_types (plain_program itself program.now)) result }
{
    let kinds = misused(alloc, program)?;
    refuse(Rule::E10, kinds.as_slice())?;
    let circles = recursive_or_empty(alloc, program)?;
    refuse(Rule::E11, circles.as_slice())?;
    let groups = cyclic(alloc, bound)?;
    refuse(Rule::E12, groups.as_slice())
}

/// Scopes a program: binds each of its names, once and for all later stages, and judges the rules on names (E06 to E09), on
/// the kinds of types and on data types (E10, E11) and on let groups (E12). Haskell 2010 Report, chapters 3 to 5, in this
/// project's profile.
///
/// `program` begins with the declarations of the prelude, which keep the place 0:0. The answer is the tree with what each
/// name is bound to at its node. It is `Refused` exactly where a rule is broken: by the first broken rule in the order of
/// the codes, at the place of it that comes first in the source. A program with 2^32 declarations, or with as many names
/// in scope at one place, counts as want of memory.
pub fn scope(alloc: Global, program: &Program<Span>) -> Result<Scoped, Fail>
    // Ok where no rule is broken, and else the first broken one at its first place.
    ensures judged { IsJudged (first_broken (plain_program itself program.now)) result }
    // Ok: E06 to E12 hold.
    ensures scoped { IfOk result (λ _. IsScoped (plain_program itself program.now)) }
    // Ok: the tree is the program with each of its names bound.
    ensures bound { IfOk result (λ scoped. plain_program itself scoped.program ≡ bound_program (plain_program itself program.now)) }
{
    verdict_law();
    let bound = bind(alloc, program)?;
    judge_names(alloc, program, &bound)?;
    judge_types(alloc, program, &bound)?;
    Ok(Scoped { program: bound })
}
